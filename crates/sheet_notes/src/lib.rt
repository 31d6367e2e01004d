// What is told of a refused sheet.
#![tactic(auto)]

ghost use Rattle.std.specs.Prelude.{◌≡◌, cond, ◌≤◌, eqb};
ghost use Rattle.output.specs.Placing.{Puts};
ghost use Rattle.sheet_notes.specs.SheetNotes.{excess_line, malformed_line, fault_line, refused_note};

use digits::read::find;
use notes::put_note;
use output::{put, put_bytes, put_decimal};
use sheet_lines::read_line;

// How many newlines a byte is.
fn newline(byte: u8) -> u64
    ensures { (result ≡ cond (eqb byte 10) 1 0) × (result ≤ 1) }
{
    if byte == b'\n' {
        return 1;
    }
    0
}

// The line of the byte behind the first 65,536.
fn excess_line(sheet: &[u8]) -> u64
    ensures { result ≡ excess_line sheet.now }
{
    let mut line: u64 = 1;
    for (i, &byte) in sheet.iter().enumerate() {
        if 65536 <= i {
            return line;
        }
        line += newline(byte);
    }
    line
}

// The first malformed line.
fn malformed_line(sheet: &[u8]) -> u64
    ensures { result ≡ malformed_line sheet.now }
{
    let mut rest = sheet;
    let mut line: u64 = 1;
    while 0 < rest.len() {
        let end = find(rest, b'\n');
        if rest.len() <= end {
            return line;
        }
        let Some(_) = read_line(&rest[..end]) else {
            return line;
        };
        line += 1;
        rest = &rest[end + 1..];
    }
    line
}

// The line with which a sheet breaks the rule of a refusal's number.
fn fault_line(sheet: &[u8], number: u8) -> u64
    ensures { result ≡ fault_line number sheet.now }
{
    if number == 1 {
        return excess_line(sheet);
    }
    if number == 10 {
        return 1025;
    }
    if number == 2 {
        return malformed_line(sheet);
    }
    0
}

// Puts the note on a refused sheet at an index, and answers the next index: `NAME: refused N` or, where the reason is wanted, `NAME:LINE: refused
// N: WORDS`, and a newline. It stands outside 01, where a buffer that is too short is refusal 3: a note without room is cut, and no note is
// longer than the name and 91 bytes.
pub fn put_refused(
    out: &mut [u8],
    at: usize,
    name: &[u8],
    explain: bool,
    number: u8,
    sheet: &[u8],
) -> usize
    ensures { Puts out.old out.new at result (refused_note name.now explain number sheet.now) }
{
    if explain {
        let line = fault_line(sheet, number);
        return put_note(out, at, name, line, number);
    }
    let refused = put_bytes(out, at, name);
    let decimal = put_bytes(out, refused, b": refused ");
    let end = put_decimal(out, decimal, number);
    put(out, end, b'\n')
}
