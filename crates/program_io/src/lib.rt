// What both programs do with the system: what a read has brought, what is written and told, the inputs that are opened, and the status.
#![tactic(auto)]

ghost use Rattle.std.specs.Prelude.{◌≡◌, ◌+◌, ◌≤◌, true, Some, pos, IfOk, IfErr, IfSome, length, is_err, take};
ghost use Rattle.std.specs.IoError.{raw_os_error};
ghost use Rattle.output.specs.Placing.{Puts};
ghost use Rattle.program_io.specs.Calls.{is_interrupted, brought_of, bytes_of, is_stuck, FailedBy, trouble_text, PutsReason, is_dash, single_digit, status_text, IsFile, NamesStandard};

use output::put_bytes;
use std::env::{Env, FillError};
use std::fs;
use std::fs::{File, OpenOptions};
use std::io::{Error, ErrorKind, Result, Stderr, Stdin, Stdout, Write};

// The errors of the system for an argument that is longer than a path may be, a path that is not text, and a descriptor that is not open for
// writing.
const ENAMETOOLONG: i32 = 36;

const EILSEQ: i32 = 84;

const EBADF: i32 = 9;

// The program's standard input, output and error, none of which has a buffer, and whether what it wrote had no reader any more. The runtime
// ignores the signal that would have ended the program then, so that it ends by itself, and whoever runs it is told.
#[derive(Clone, Copy)]
pub struct Streams {
    pub input: Stdin,
    pub output: Stdout,
    pub error: Stderr,
    pub broken: bool,
}

// What a read has brought: so many bytes, of which there are none at the end of the input; or nothing, since it was interrupted and is to be
// made again, or failed, and why. These are three cases, which no `Result` tells as plainly.
#[derive(Clone, Copy)]
pub enum Got {
    Bytes(usize),
    Again,
    Failed(Error),
}

// What is written of a text: how many bytes the calls have taken, how many are left, and why, where some are.
#[derive(Clone, Copy)]
pub struct Sent {
    pub moved: usize,
    pub left: usize,
    pub why: Error,
}

// No failure.
pub fn no_error() -> Error
    ensures { raw_os_error result ≡ Some (pos 0) }
{
    Error::from_raw_os_error(0)
}

// Whether a call failed since it was interrupted.
fn is_interrupted(why: Error) -> bool
    ensures { result ≡ is_interrupted why }
{
    why.kind() == ErrorKind::Interrupted
}

// Whether a write failed since nobody reads any more.
fn is_broken(why: Error) -> bool {
    why.kind() == ErrorKind::BrokenPipe
}

// What a read that was answered so has brought.
pub fn brought(answer: Result<usize>) -> Got
    ensures { result ≡ brought_of answer }
{
    match answer {
        Ok(n) => Got::Bytes(n),
        Err(why) if is_interrupted(why) => Got::Again,
        Err(why) => Got::Failed(why),
    }
}

// How many bytes a write that was answered so has taken: none, where it was interrupted. One that took none otherwise has failed.
fn taken(answer: Result<usize>) -> Result<usize>
    ensures bytes { IfOk result (λ n. n ≡ bytes_of answer) }
    ensures stuck { is_err result ≡ is_stuck answer }
    ensures why { IfErr result (FailedBy answer) }
{
    match answer {
        Ok(0) => Err(no_error()),
        Ok(n) => Ok(n),
        Err(why) if is_interrupted(why) => Ok(0),
        Err(why) => Err(why),
    }
}

// Writes a text. Each byte was taken by a call, or is left: none is, unless a call failed. Nothing says that the calls take bytes, so they are
// counted, up to a number that no run reaches.
fn write_text<W: Write>(to: &mut W, text: &[u8]) -> Sent
    ensures all { result.moved + result.left ≡ length text.now }
    ensures why { result.left ≡ 0 → raw_os_error result.why ≡ Some (pos 0) }
{
    let mut rest = text;
    let mut moved = 0;
    for _ in 0..u64::MAX {
        if rest.is_empty() {
            return Sent {
                moved,
                left: 0,
                why: no_error(),
            };
        }
        match taken(to.write(rest)) {
            Ok(n) => {
                moved += n;
                rest = &rest[n..];
            }
            Err(why) => {
                return Sent {
                    moved,
                    left: rest.len(),
                    why,
                };
            }
        }
    }
    Sent {
        moved,
        left: rest.len(),
        why: no_error(),
    }
}

// Puts what is told of a failure before the system's words: the program's name, and what it is told of.
fn put_trouble(line: &mut [u8], what: &[u8]) -> usize
    ensures { Puts line.old line.new 0 result (trouble_text what.now) }
{
    let behind = put_bytes(line, 0, b"nibharrow: ");
    put_bytes(line, behind, what)
}

// Puts what is told behind that: the system's words for the failure, as std has them but for the error's number.
fn put_reason(line: &mut [u8], at: usize, why: Error) -> usize
    ensures { PutsReason line.old line.new at result }
{
    let mut room = [0u8; 256];
    let mut rest = &mut room[..];
    let mut to = &mut rest;
    let _ = write!(to, "{why}");
    let n = 256usize.saturating_sub(rest.len());
    let shown = std::str::from_utf8(&room[..n]).unwrap_or("");
    let words = shown
        .split_once(" (os error ")
        .map_or(shown, |(words, _)| words);
    let behind = put_bytes(line, at, b": ");
    let end = put_bytes(line, behind, words.as_bytes());
    put_bytes(line, end, b"\n")
}

// What is written of a status, at the start: its digit, and a `p`, as in pipe, where nobody reads what the program writes any more.
fn status_text(status: u8, broken: bool) -> ([u8; 2], usize)
    ensures in_bounds { (1 ≤ result.1) × (result.1 ≤ 2) }
    ensures value { take result.1 result.0 ≡ status_text status broken }
{
    let len = if broken { 2 } else { 1 };
    ([b'0' + status % 10, b'p'], len)
}

// Writes the status: the `p` by a call of its own, and also where the digit could not be written.
fn write_digit<W: Write>(to: &mut W, status: u8, broken: bool) -> Sent
    ensures { result.moved + result.left ≡ length (status_text status broken) }
{
    let (text, len) = status_text(status, broken);
    let text = &text[..len];
    let digit = write_text(to, &text[..1]);
    let behind = write_text(to, &text[1..]);
    Sent {
        moved: digit.moved + behind.moved,
        left: digit.left + behind.left,
        why: if 0 < behind.left {
            behind.why
        } else {
            digit.why
        },
    }
}

// Whether a path is `-`, which stands for standard input.
fn is_dash(path: &[u8]) -> bool
    ensures { result ≡ is_dash path.now }
{
    matches!(path, b"-")
}

// The digit that a text is: so the descriptor for the status is named.
fn single_digit(text: &[u8]) -> Option<u8>
    ensures { result ≡ single_digit text.now }
{
    match text {
        [c @ b'0'..=b'9'] => Some(*c - b'0'),
        _ => None,
    }
}

// A path as std takes it, which is text.
fn path_text(path: &[u8]) -> Result<&str>
    ensures { IfOk result (λ text. text.now ≡ path.now) }
{
    std::str::from_utf8(path).map_err(|_| Error::from_raw_os_error(EILSEQ))
}

// Opens what a descriptor is open on for writing once more, at its end, if it is open for writing.
fn open_descriptor<R: fs::Files>(rt: &R, fd: u8) -> Result<R::File> {
    let mut path = *b"/proc/self/fd/0";
    path[14] = b'0' + fd % 10;
    let path = path_text(&path)?;
    // the link's own permissions say how the descriptor is open
    if fs::symlink_metadata(rt, path)?.permissions().readonly() {
        return Err(Error::from_raw_os_error(EBADF));
    }
    OpenOptions::new().append(true).open(rt, path)
}

// Where an input is read from.
#[derive(Drop)]
pub enum Input<F> {
    Standard(Stdin),
    File(F),
}

// Opens a file for reading.
fn open_file<R: fs::Files>(rt: &R, path: &[u8]) -> Result<Input<R::File>>
    ensures { IfOk result IsFile }
{
    Ok(Input::File(File::open(rt, path_text(path)?)?))
}

// Of an argument that is too long for the buffer the first bytes are its name.
fn open_argument<R: Env + fs::Files>(
    rt: &R,
    i: usize,
    standard: Stdin,
    name: &mut [u8; 4096],
) -> (usize, Result<Input<R::File>>)
    ensures named { result.0 ≤ 4096 }
    ensures standard { IfOk result.1 (NamesStandard (take result.0 name.new)) }
{
    match rt.arg(i, name) {
        Ok(n) if !is_dash(&name[..n]) => (n, open_file(rt, &name[..n])),
        Err(FillError::TooLong) => (name.len(), Err(Error::from_raw_os_error(ENAMETOOLONG))),
        _ => (
            put_bytes(name, 0, b"(standard input)"),
            Ok(Input::Standard(standard)),
        ),
    }
}

impl Streams {
    // Tells on standard error what failed, with the system's words. Where nobody reads that any more, the program is to end.
    pub fn tell(&mut self, what: &[u8], why: Error)
        ensures { self.old.broken ≡ true → self.new.broken ≡ true }
    {
        let mut line = [0u8; 4200];
        let named = put_trouble(&mut line, what);
        let end = put_reason(&mut line, named, why);
        self.write_error(&line[..end]);
    }

    fn write_error(&mut self, text: &[u8]) -> Sent
        ensures all { result.moved + result.left ≡ length text.now }
        ensures broken { self.old.broken ≡ true → self.new.broken ≡ true }
    {
        let sent = write_text(&mut self.error, text);
        self.broken |= is_broken(sent.why);
        sent
    }

    // Writes answers on standard output, and behind them notes on standard error. Why answers could not be written is told, if not that nobody
    // reads them any more: that is told by whoever runs the program.
    pub fn write_answers(&mut self, answers: &[u8], notes: &[u8]) -> Sent
        ensures all { result.moved + result.left ≡ length answers.now + length notes.now }
        ensures broken { self.old.broken ≡ true → self.new.broken ≡ true }
    {
        let answer = write_text(&mut self.output, answers);
        if 0 < answer.left {
            if is_broken(answer.why) {
                self.broken = true;
            } else {
                self.tell(b"write error", answer.why);
            }
            return Sent {
                moved: answer.moved,
                left: answer.left + notes.len(),
                why: answer.why,
            };
        }
        let told = self.write_error(notes);
        Sent {
            moved: answer.moved + told.moved,
            left: told.left,
            why: told.why,
        }
    }

    // Opens what an argument names, which is standard input where it is `-` or there is none, or tells why it cannot be opened. The name by which
    // the input is told is put into the buffer, and how long it is is answered.
    pub fn open<R: Env + fs::Files>(
        &mut self,
        rt: &R,
        i: usize,
        name: &mut [u8; 4096],
    ) -> (usize, Option<Input<R::File>>)
        ensures named { result.0 ≤ 4096 }
        ensures standard { IfSome result.1 (NamesStandard (take result.0 name.new)) }
        ensures broken { self.old.broken ≡ true → self.new.broken ≡ true }
    {
        match open_argument(rt, i, self.input, name) {
            (n, Ok(input)) => (n, Some(input)),
            (n, Err(why)) => {
                self.tell(&name[..n], why);
                (n, None)
            }
        }
    }

    // Writes the status to the descriptor that the first argument names by a digit, if it is open for writing: the language gives a program no
    // other way to tell it.
    pub fn write_status<R: Env + fs::Files>(&mut self, rt: &R, status: u8) -> Option<Sent>
        ensures { IfSome result (λ sent. sent.moved + sent.left ≡ length (status_text status self.old.broken)) }
    {
        let mut argument = [0u8; 2];
        let n = rt.arg(1, &mut argument).unwrap_or(0);
        let fd = single_digit(&argument[..n])?;
        let broken = self.broken;
        Some(match fd {
            1 => write_digit(&mut self.output, status, broken),
            2 => write_digit(&mut self.error, status, broken),
            _ => write_digit(&mut open_descriptor(rt, fd).ok()?, status, broken),
        })
    }
}
