// Blocks as records of bytes: the address in network order, then the length.
#![tactic(auto)]

ghost use Rattle.std.specs.Prelude.{◌≡◌, [], ◌∷◌};
ghost use Rattle.address.specs.Addresses.{width};
ghost use Rattle.address.specs.Answers.{block_answer, writing_answer, write_answer, write_leaves};
ghost use Rattle.address.specs.Blocks.{block_refusal};
ghost use Rattle.records.specs.Records.{record_size, block_record, part_sizes, parts_leave, record_answer};

use address::{Address, Block, Refusal};
use octets::{put_eight, put_four, read_octets};

// How many bytes the record of a block with that address has.
pub fn record_size(address: Address) -> usize
    ensures { result ≡ record_size (width address) }
{
    match address {
        Address::V4(_) => 5,
        Address::V6(_, _) => 17,
    }
}

// Puts a byte at the start of `out`, where there is room for it.
fn put_byte(byte: u8, out: &mut [u8])
    ensures { out.new ≡ write_leaves 0 (byte ∷ []) out.old }
{
    if out.len() < 1 {
        return;
    }
    out[0] = byte;
}

// Puts the record of any block value at the start of `out`. It stands outside 01, which gives refusal 3: where the record has no room, those
// of its parts are put that have it. Each part has a test of its own: the compiler stores its bytes at once only where a test stands between it and the next.
pub fn fill_record(block: Block, out: &mut [u8])
    ensures { out.new ≡ parts_leave (part_sizes block.address) (block_record block) out.old }
{
    let address = block.address;
    let length = block.length;
    match address {
        Address::V4(v) => {
            if out.len() < 4 {
                return;
            }
            put_four(v, out);
            put_byte(length, &mut out[4..]);
        }
        Address::V6(hi, lo) => {
            if out.len() < 8 {
                return;
            }
            put_eight(hi, out);
            if out.len() < 16 {
                return;
            }
            put_eight(lo, &mut out[8..]);
            put_byte(length, &mut out[16..]);
        }
    }
}

// Writes the record of a block to the start of `out`, where the block keeps both rules and there is room for it.
pub fn write_record(block: Block, out: &mut [u8]) -> Result<usize, Refusal>
    ensures { (writing_answer result ≡ write_answer (block_refusal block) (block_record block) out.old) × (out.new ≡ write_leaves (block_refusal block) (block_record block) out.old) }
{
    block.check()?;
    let size = record_size(block.address);
    if out.len() < size {
        return Err(Refusal::NoRoom);
    }
    fill_record(block, out);
    Ok(size)
}

// The block of one record.
pub fn read_record(bytes: &[u8]) -> Result<Block, Refusal>
    ensures { block_answer result ≡ record_answer bytes.now }
{
    let n = bytes.len();
    if n == 0 {
        return Err(Refusal::Malformed);
    }
    let Ok(address) = read_octets(&bytes[..n - 1]) else {
        return Err(Refusal::Malformed);
    };
    let length = bytes[n - 1];
    let block = Block { address, length };
    block.checked()
}
