// The refusals in words.
#![tactic(auto)]

ghost use Rattle.std.specs.Prelude.{◌≡◌};
ghost use Rattle.address.specs.Answers.{refusal_number, writing_answer, write_answer, write_leaves};
ghost use Rattle.words.specs.Words.{words_text, words_refusal};

use address::Refusal;
use store::store;

// Stores the words of a refusal at the start of `out`, where there is room for them. Each text is stored where it stands: of a constant the compiler
// knows that it is apart from the buffer, and a text out of a table it would store by `memmove`.
fn store_words(refusal: Refusal, out: &mut [u8]) -> Result<usize, Refusal>
    ensures { (writing_answer result ≡ write_answer (words_refusal (refusal_number refusal)) (words_text (refusal_number refusal)) out.old) × (out.new ≡ write_leaves (words_refusal (refusal_number refusal)) (words_text (refusal_number refusal)) out.old) }
{
    match refusal {
        Refusal::TextTooLong => store(b"the text is longer than the call takes", out),
        Refusal::Malformed => store(b"the text or the bytes are not of the form asked for", out),
        Refusal::NoRoom => store(b"the buffer is shorter than the answer", out),
        Refusal::LengthTooLarge => store(
            b"the length or size is above the bits of an address",
            out,
        ),
        Refusal::BitsBeyondLength => store(
            b"the block's address has a one bit beyond its length",
            out,
        ),
        Refusal::NoClass => store(b"the address or network number is of no class", out),
        Refusal::HostTooLarge => store(
            b"the host number is too large for its network's class",
            out,
        ),
        Refusal::FirstAboveLast => store(b"the first address is above the last", out),
        Refusal::WrongFamily => store(
            b"the address family is unknown, mixed or not meant here",
            out,
        ),
        Refusal::TooMany => store(b"there are more entries than the call takes", out),
    }
}

// Writes the words of a refusal's number to the start of `out`, where there is room for them.
pub fn write_words(number: u32, out: &mut [u8]) -> Result<usize, Refusal>
    ensures { (writing_answer result ≡ write_answer (words_refusal number) (words_text number) out.old) × (out.new ≡ write_leaves (words_refusal number) (words_text number) out.old) }
{
    let refusal = Refusal::try_from(number)?;
    store_words(refusal, out)
}
