// Normal text of an address, written.
#![tactic(auto)]

ghost use Rattle.std.specs.Prelude.{◌≡◌};
ghost use Rattle.address.specs.Answers.{writing_answer, write_answer, write_leaves};
ghost use Rattle.output.specs.Placing.{Puts};
ghost use Rattle.normal.specs.Normal.{normal_text};

use address::{Address, Refusal};
use address_groups::groups;
use build::put_eight;
use ipv4_text::put_dotted;
use store::store;

mod build;

// Puts the normal text of an address at an index of the text, and answers the next index. It stands outside 01, whose writer is
// `write_address`: a text without room is cut, where 01 gives refusal 3.
pub fn put_address(text: &mut [u8], at: usize, address: Address) -> usize
    ensures { Puts text.old text.new at result (normal_text address) }
{
    match address {
        Address::V4(v) => put_dotted(text, at, v),
        Address::V6(hi, lo) => put_eight(text, at, groups(hi, lo)),
    }
}

// Writes the normal text of an address to the start of `out`, where there is room for it.
pub fn write_address(address: Address, out: &mut [u8]) -> Result<usize, Refusal>
    ensures { (writing_answer result ≡ write_answer 0 (normal_text address) out.old) × (out.new ≡ write_leaves 0 (normal_text address) out.old) }
{
    let mut text = [0u8; 48];
    let n = put_address(&mut text, 0, address);
    store(&text[..n], out)
}
