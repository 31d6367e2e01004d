// Strict text of IPv4 and IPv6 addresses, read.
#![tactic(auto)]

ghost use Rattle.std.specs.Prelude.{◌≡◌, option_map};
ghost use Rattle.address.specs.Answers.{reading_answer};
ghost use Rattle.address.specs.declared.Address.TheVariants.{V4};
ghost use Rattle.address_groups.specs.Groups.{groups_address};
ghost use Rattle.ipv4_text.specs.Dotted.{dotted_of};
ghost use Rattle.ipv6_text.specs.EightGroups.{eight_of};
ghost use Rattle.text.specs.Strict.{known_family, strict_of, strict_answer};

use address::{Address, Refusal};
use address_groups::from_groups;
use ipv4_text::read_dotted;
use ipv6_text::read_eight;

fn read_ipv4(text: &[u8]) -> Option<Address>
    ensures { result ≡ option_map V4 (dotted_of text.now) }
{
    let v = read_dotted(text)?;
    Some(Address::V4(v))
}

fn read_ipv6(text: &[u8]) -> Option<Address>
    ensures { result ≡ option_map groups_address (eight_of text.now) }
{
    let groups = read_eight(text)?;
    Some(from_groups(groups))
}

fn is_family(family: u8) -> bool
    ensures { result ≡ known_family family }
{
    matches!(family, 0 | 4 | 6)
}

// The address of a text of family 4, of family 6, or else of either.
fn read_strict(text: &[u8], family: u8) -> Option<Address>
    ensures { result ≡ strict_of family text.now }
{
    match family {
        4 => read_ipv4(text),
        6 => read_ipv6(text),
        _ => match read_ipv4(text) {
            Some(address) => Some(address),
            None => read_ipv6(text),
        },
    }
}

// The address of a strict text of a family: 4, 6, or 0 for either.
pub fn read_address(text: &[u8], family: u8) -> Result<Address, Refusal>
    ensures { reading_answer result ≡ strict_answer family text.now }
{
    if !is_family(family) {
        return Err(Refusal::WrongFamily);
    }
    if 64 < text.len() {
        return Err(Refusal::TextTooLong);
    }
    read_strict(text, family).ok_or(Refusal::Malformed)
}
