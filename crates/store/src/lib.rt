// A finished text stored in a lent buffer, all of it or nothing.
#![tactic(auto)]

ghost use Rattle.std.specs.Prelude.{◌≡◌};
ghost use Rattle.address.specs.Answers.{writing_answer, write_answer, write_leaves};

use address::Refusal;

// Stores a text at the start of `out`, where there is room for it.
pub fn store(text: &[u8], out: &mut [u8]) -> Result<usize, Refusal>
    ensures { (writing_answer result ≡ write_answer 0 text.now out.old) × (out.new ≡ write_leaves 0 text.now out.old) }
{
    let n = text.len();
    if out.len() < n {
        return Err(Refusal::NoRoom);
    }
    out[..n].copy_from_slice(text);
    Ok(n)
}
