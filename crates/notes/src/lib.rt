// What is told of a refused line.
#![tactic(auto)]

ghost use Rattle.output.specs.Placing.{Puts};
ghost use Rattle.words.specs.Words.{words_text};
ghost use Rattle.notes.specs.Notes.{note_text};

use output::{put, put_bytes, put_decimal, put_number};
use words::write_words;

// Puts the words of a refusal's number, of which none is longer than 54 bytes, and nothing for any other number.
fn put_words(out: &mut [u8], at: usize, number: u8) -> usize
    ensures { Puts out.old out.new at result (words_text number) }
{
    let mut words = [0u8; 54];
    match write_words(number as u32, &mut words) {
        Ok(n) => put_bytes(out, at, &words[..n]),
        Err(_) => at,
    }
}

// Puts the note on a refused line at an index, and answers the next index: `FILE:LINE: refused N: WORDS` and a newline. It stands outside 01,
// where a buffer that is too short is refusal 3: a note without room is cut, and no note is longer than the name and 91 bytes.
pub fn put_note(out: &mut [u8], at: usize, name: &[u8], line: u64, number: u8) -> usize
    ensures { Puts out.old out.new at result (note_text name.now line number) }
{
    let colon = put_bytes(out, at, name);
    let digits = put(out, colon, b':');
    let refused = put_number(out, digits, line);
    let decimal = put_bytes(out, refused, b": refused ");
    let second = put_decimal(out, decimal, number);
    let words = put_bytes(out, second, b": ");
    let end = put_words(out, words, number);
    put(out, end, b'\n')
}
