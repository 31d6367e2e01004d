// The loose IPv4 form, read: one to four parts in hexadecimal, octal or decimal.
#![tactic(auto)]

ghost use Rattle.std.specs.Prelude.{◌≡◌, cond, ◌+◌, ◌-◌, ◌*◌, ◌^◌, ◌≤◌, ◌<◌, ltb, Some, None};
ghost use Rattle.address.specs.Answers.{reading_answer};
ghost use Rattle.address.specs.declared.Address.TheVariants.{V4};
ghost use Rattle.loose.specs.Inner.{leading_loose};
ghost use Rattle.loose.specs.Loose.{base_of, mark_of, loose_of, loose_answer};

use address::{Address, Refusal};
use digits::read::{hex_marked, leading_number};

// The base that a text says by how it begins.
fn base(text: &[u8]) -> u8
    ensures { result ≡ base_of text.now }
{
    if hex_marked(text) {
        return 16;
    }
    match text {
        [b'0', ..] => 8,
        _ => 10,
    }
}

// How many bytes stand before the digits.
fn mark(text: &[u8]) -> usize
    ensures { result ≡ mark_of text.now }
{
    if hex_marked(text) { 2 } else { 0 }
}

// The part that a text begins with: its number, and how many bytes it has.
fn leading_loose(text: &[u8]) -> Option<(u32, usize)>
    ensures { result ≡ leading_loose text.now }
{
    let skip = mark(text);
    let (value, count) = leading_number(&text[skip..], base(text), 4294967295)?;
    Some((value, skip + count))
}

// The address of octets that write `value` and a last part, which fills the octets that are left.
fn last_part(value: u32, part: u32, left: u32) -> Option<Address>
    requires { (left ≤ 4) × (value < 256 ^ (4 - left)) }
    ensures { result ≡ cond (ltb part (256 ^ left)) (Some (V4 (value * 256 ^ left + part))) None }
{
    let room = 1u64 << (8 * left);
    if room <= (part as u64) {
        return None;
    }
    Some(Address::V4(((value as u64) * room + (part as u64)) as u32))
}

// The address of one to four parts with dots between them.
fn read_parts(text: &[u8]) -> Option<Address>
    ensures { result ≡ loose_of text.now }
{
    let mut rest = text;
    let mut value: u32 = 0;
    for n in 0..4 {
        let (part, end) = leading_loose(rest)?;
        if rest.len() <= end {
            return last_part(value, part, 4 - n);
        }
        if rest[end] != b'.' {
            return None;
        }
        if 255 < part {
            return None;
        }
        value = value * 256 + part;
        rest = &rest[end + 1..];
    }
    None
}

// The address of a loose text.
pub fn read_loose(text: &[u8]) -> Result<Address, Refusal>
    ensures { reading_answer result ≡ loose_answer text.now }
{
    if 64 < text.len() {
        return Err(Refusal::TextTooLong);
    }
    read_parts(text).ok_or(Refusal::Malformed)
}
