// The text of a block: an address, a slash and a length, read and written.
#![tactic(auto)]

ghost use Rattle.std.specs.Prelude.{◌≡◌};
ghost use Rattle.address.specs.Answers.{block_answer, writing_answer, write_answer, write_leaves};
ghost use Rattle.address.specs.Blocks.{block_refusal};
ghost use Rattle.output.specs.Placing.{Puts};
ghost use Rattle.blocks.specs.BlockText.{block_text_answer, block_text};

use address::{Block, Refusal};
use digits::parts::whole_part;
use digits::read::find;
use normal::put_address;
use output::{put, put_decimal};
use store::store;
use text::read_address;

// The block of a text of either family.
pub fn read_block(text: &[u8]) -> Result<Block, Refusal>
    ensures { block_answer result ≡ block_text_answer text.now }
{
    if 64 < text.len() {
        return Err(Refusal::TextTooLong);
    }
    let slash = find(text, b'/');
    if text.len() <= slash {
        return Err(Refusal::Malformed);
    }
    let Ok(address) = read_address(&text[..slash], 0) else {
        return Err(Refusal::Malformed);
    };
    let (length, _) = whole_part(&text[slash + 1..], 999).ok_or(Refusal::Malformed)?;
    if 128 < length {
        return Err(Refusal::LengthTooLarge);
    }
    let block = Block {
        address,
        length: length as u8,
    };
    block.checked()
}

// Puts the text of any block value at an index of the text, and answers the next index. It stands outside 01, whose writer is
// `write_block`: a value that breaks a rule is put as any other, and a text without room is cut, where 01 gives refusals 4, 5 and 3.
pub fn put_block(text: &mut [u8], at: usize, block: Block) -> usize
    ensures { Puts text.old text.new at result (block_text block) }
{
    let address = block.address;
    let length = block.length;
    let a = put_address(text, at, address);
    let b = put(text, a, b'/');
    put_decimal(text, b, length)
}

// Writes the text of a block to the start of `out`, where the block keeps both rules and there is room for it.
pub fn write_block(block: Block, out: &mut [u8]) -> Result<usize, Refusal>
    ensures { (writing_answer result ≡ write_answer (block_refusal block) (block_text block) out.old) × (out.new ≡ write_leaves (block_refusal block) (block_text block) out.old) }
{
    block.check()?;
    let mut text = [0u8; 48];
    let n = put_block(&mut text, 0, block);
    store(&text[..n], out)
}
