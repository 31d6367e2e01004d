// A range of addresses into the fewest blocks, as records in a lent buffer.
#![tactic(auto)]

ghost use Rattle.std.specs.Prelude.{◌≡◌};
ghost use Rattle.address.specs.Addresses.{family};
ghost use Rattle.output.specs.Placing.{PutsAll};
ghost use Rattle.records.specs.Records.{blocks_writing_answer};
ghost use Rattle.ranges.specs.Ranges.{range_records, range_answer, range_leaves};

use address::{Address, Refusal};
use runs::{put_ipv4, put_ipv6};

// Puts the records of the blocks from first to last, of one family, at the start of `out` where all of them have room. Answers how many
// bytes they are, or 0.
fn put_range(first: Address, last: Address, out: &mut [u8]) -> usize
    requires { family first ≡ family last }
    ensures { PutsAll out.old out.new 0 result (range_records first last) }
{
    let a = first.number();
    let b = last.number();
    if first.family() == 4 {
        return put_ipv4(a.lo as u32, b.lo as u32, out, 0);
    }
    put_ipv6(a, b, out, 0)
}

// Turns the range from first to last into the fewest blocks, and writes their records to the start of `out`.
pub fn range_blocks(
    first: Address,
    last: Address,
    out: &mut [u8],
) -> Result<(usize, usize), Refusal>
    ensures { (blocks_writing_answer result ≡ range_answer first last out.old) × (out.new ≡ range_leaves first last out.old) }
{
    if first.family() != last.family() {
        return Err(Refusal::WrongFamily);
    }
    if last < first {
        return Err(Refusal::FirstAboveLast);
    }
    let bytes = put_range(first, last, out);
    if bytes == 0 {
        return Err(Refusal::NoRoom);
    }
    if first.family() == 4 {
        return Ok((bytes / 5, bytes));
    }
    Ok((bytes / 17, bytes))
}
