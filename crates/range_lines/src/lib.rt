// The input of the range program, answered line after line, wherever it is cut into pieces and however long the buffers are.
#![tactic(auto)]

ghost use Rattle.std.specs.Prelude.{◌≡◌, ◌||◌, not, [], ◌++◌, ◌+◌, ◌<◌, eqb, ltb, length};
ghost use Rattle.output.specs.Placing.{Puts};
ghost use Rattle.range_text.specs.RangeText.{PutsAnswer, answer_line, told};
ghost use Rattle.range_lines.specs.Lines.{next_line, told_of};
ghost use Rattle.range_lines.specs.Feeding.{pending_text, kept, place_of, at_start, has_room, Feeds, closing};
ghost use Rattle.range_lines.specs.Inner.{AnswersLine, BeginsLine};

use address::Refusal;
use digits::read::find;
use notes::put_note;
use range_text::{Answered, put_answer};

// A line that is not finished: its first bytes, at most 130. More are not kept, since a line of more than 129 bytes is refused
// whatever it holds. The bytes behind the first `len` are free, and a `len` above 130 stands for 130: no answer to a line depends on either.
#[derive(Clone, Copy)]
pub struct Pending {
    pub len: usize,
    pub bytes: [u8; 130],
}

// Where the reading of an input stands: the line that is begun, and its number, from 1 on.
#[derive(Clone, Copy)]
pub struct Reader {
    pub pending: Pending,
    pub line: u64,
}

// What a call has done with a piece: where the reading now stands, how many bytes of the piece are taken, the index behind the answers
// and behind the notes, and whether a line was refused.
#[derive(Clone, Copy)]
pub struct Fed {
    pub reader: Reader,
    pub taken: usize,
    pub next: usize,
    pub noted: usize,
    pub refused: bool,
}

// No line is begun.
fn begin() -> Pending
    ensures { pending_text result ≡ [] }
{
    Pending {
        len: 0,
        bytes: [0u8; 130],
    }
}

// Before the first byte of an input.
pub fn start() -> Reader
    ensures { place_of result ≡ at_start }
{
    Reader {
        pending: begin(),
        line: 1,
    }
}

// The bytes of a line, and more behind them.
fn keep(pending: Pending, more: &[u8]) -> Pending
    ensures { pending_text result ≡ kept (pending_text pending ++ more.now) }
{
    let mut bytes = pending.bytes;
    let mut len = pending.len;
    for &byte in more {
        if 130 <= len {
            return Pending { len: 130, bytes };
        }
        bytes[len] = byte;
        len += 1;
    }
    Pending { len, bytes }
}

// Puts the answer to the line that is begun, ended by the bytes of `more`.
fn put_line(pending: Pending, more: &[u8], out: &mut [u8], at: usize) -> Answered
    ensures { PutsAnswer out.old out.new at result (answer_line (pending_text pending ++ more.now)) }
{
    if pending.len == 0 {
        return put_answer(out, at, more);
    }
    let whole = keep(pending, more);
    let bytes = whole.bytes;
    let len = whole.len;
    if 130 < len {
        return put_answer(out, at, &bytes);
    }
    put_answer(out, at, &bytes[..len])
}

// Puts the note on a line, if it is refused and notes are wanted.
fn put_told(
    explain: bool,
    name: &[u8],
    line: u64,
    refused: Option<Refusal>,
    notes: &mut [u8],
    at: usize,
) -> usize
    ensures { Puts notes.old notes.new at result (told_of explain name.now line (told refused)) }
{
    if !explain {
        return at;
    }
    let Some(why) = refused else {
        return at;
    };
    put_note(notes, at, name, line, u8::from(why))
}

// Whether the answer to any line, and the note on it, have room.
fn has_room(explain: bool, name: &[u8], free: usize, spare: usize) -> bool
    ensures { result ≡ has_room explain name.now free spare }
{
    11176 <= free && (!explain || name.len() + 91 <= spare)
}

// The number of the line behind this one; the last of 64 bits stays.
fn next_line(line: u64) -> u64
    ensures { result ≡ next_line line }
{
    if line == u64::MAX { line } else { line + 1 }
}

// Whether a line was refused, up to one that is answered so.
fn also_refused(before: bool, refused: Option<Refusal>) -> bool
    ensures { result ≡ (before || not (eqb (told refused) 0)) }
{
    before || refused.is_some()
}

// Answers the line that is begun, ended by the bytes of `more` and a newline.
fn answer_line(
    done: Fed,
    more: &[u8],
    explain: bool,
    name: &[u8],
    out: &mut [u8],
    notes: &mut [u8],
) -> Fed
    requires { done.taken + length more.now < 18446744073709551615 }
    ensures { AnswersLine explain name.now done more.now out.old out.new notes.old notes.new result }
{
    let reader = done.reader;
    let pending = reader.pending;
    let line = reader.line;
    let answer = put_line(pending, more, out, done.next);
    let refused = answer.refused;
    let noted = put_told(explain, name, line, refused, notes, done.noted);
    Fed {
        reader: Reader {
            pending: begin(),
            line: next_line(line),
        },
        taken: done.taken + more.len() + 1,
        next: answer.next,
        noted,
        refused: also_refused(done.refused, refused),
    }
}

// Takes the bytes behind the last newline of a piece, which begin a line.
fn begin_line(done: Fed, more: &[u8]) -> Fed
    requires { done.taken + length more.now < 18446744073709551616 }
    ensures { BeginsLine done more.now result }
{
    let reader = done.reader;
    let pending = reader.pending;
    Fed {
        reader: Reader {
            pending: keep(pending, more),
            line: reader.line,
        },
        taken: done.taken + more.len(),
        next: done.next,
        noted: done.noted,
        refused: done.refused,
    }
}

// Takes a piece of the input, line after line: the answers are put at the start of `out`, and, where notes are wanted, what is told of the
// refused lines at the start of `notes`. It stops before a line whose answer or note might have no room, so that nothing is cut: then
// fewer bytes are taken than the piece has, and the call is made again with the rest of it. 11,176 bytes have room for any answer, and those of
// the name and 91 more for any note.
pub fn feed(
    reader: Reader,
    piece: &[u8],
    explain: bool,
    name: &[u8],
    out: &mut [u8],
    notes: &mut [u8],
) -> Fed
    ensures { Feeds explain name.now reader piece.now out.old out.new notes.old notes.new result }
{
    let mut done = Fed {
        reader,
        taken: 0,
        next: 0,
        noted: 0,
        refused: false,
    };
    let mut rest = piece;
    let mut end = find(rest, b'\n');
    while end < rest.len() {
        if !has_room(
            explain,
            name,
            out.len() - done.next,
            notes.len() - done.noted,
        ) {
            return done;
        }
        done = answer_line(done, &rest[..end], explain, name, out, notes);
        rest = &rest[end + 1..];
        end = find(rest, b'\n');
    }
    begin_line(done, rest)
}

// Whether an unfinished line has a byte.
fn holds_bytes(pending: Pending) -> bool
    ensures { result ≡ ltb 0 (length (pending_text pending)) }
{
    0 < pending.len
}

// Whether a line is begun.
pub fn is_begun(reader: Reader) -> bool
    ensures { result ≡ ltb 0 (length (place_of reader).begun) }
{
    let pending = reader.pending;
    holds_bytes(pending)
}

// Takes the end of the input, which ends a line that is begun as a newline does.
pub fn finish(reader: Reader, explain: bool, name: &[u8], out: &mut [u8], notes: &mut [u8]) -> Fed
    ensures { Feeds explain name.now reader (closing (pending_text reader.pending)) out.old out.new notes.old notes.new result }
{
    if !is_begun(reader) {
        return Fed {
            reader,
            taken: 0,
            next: 0,
            noted: 0,
            refused: false,
        };
    }
    feed(reader, b"\n", explain, name, out, notes)
}
