// The acidity sheet respelled, and its lines sorted by address. Each line is read once, into a row of a table; whole rows are put in order and
// written, so that no reading leaves its address.
#![tactic(auto)]

ghost use Rattle.std.specs.Prelude.{true, ◌≡◌, [], ◌∷◌, ◌≤◌, length, take};
ghost use Rattle.address.specs.Answers.{writing_answer, write_answer, write_leaves};
ghost use Rattle.output.specs.Placing.{Puts};
ghost use Rattle.sheet_answers.specs.Sheets.{sheet_lines, sheet_text, AllEntries, arranged};
ghost use Rattle.sheet_answers.specs.SheetAnswers.{most_lines, respell_answer, respell_leaves};
ghost use Rattle.sheet.specs.Inner.{finished_entry, ReadsRows, fault_of, Picks, picked, Sorts, of_family};

use address::{Address, Refusal};
use digits::read::find;
use sheet_lines::{Entry, put_line, read_line};
use sort::sort_keys;
use store::store;

// What a row holds before a line is read into it.
const BLANK: Entry = Entry {
    address: Address::V4(0),
    volume: 0,
    ph: 0,
};

// ---- read

// How many lines a sheet has, a last one without its newline among them.
fn count_lines(sheet: &[u8]) -> usize
    ensures { result ≡ length (sheet_lines sheet.now) }
{
    let mut rest = sheet;
    let mut count: usize = 0;
    while 0 < rest.len() {
        let newline = find(rest, b'\n');
        if rest.len() <= newline {
            return count + 1;
        }
        count += 1;
        rest = &rest[newline + 1..];
    }
    count
}

// Why a sheet that is not too long could not be read. Reading stops at the first malformed line, and 10 stands before 2: so the lines are counted
// here, and only here.
fn fault(sheet: &[u8]) -> Refusal
    ensures { result ≡ fault_of sheet.now }
{
    if 1024 < count_lines(sheet) {
        return Refusal::TooMany;
    }
    Refusal::Malformed
}

// The entry of the line that ends at an index, if its newline stands there.
fn finished_line(rest: &[u8], end: usize) -> Option<Entry>
    ensures { result ≡ (finished_entry rest.now end) }
{
    if rest.len() <= end {
        return None;
    }
    read_line(&rest[..end])
}

// Reads a sheet line by line, each into a row.
fn read_rows(sheet: &[u8], rows: &mut [Entry]) -> Option<usize>
    requires { length rows.old ≡ most_lines }
    ensures { ReadsRows sheet.now rows.new result }
{
    let mut rest = sheet;
    let mut n: usize = 0;
    while 0 < rest.len() {
        if 1024 <= n {
            return None;
        }
        let end = find(rest, b'\n');
        rows[n] = finished_line(rest, end)?;
        n += 1;
        rest = &rest[end + 1..];
    }
    Some(n)
}

// ---- sorted

// Stores the indices of rows in the order of their addresses' numbers, which take no account of the family. Neither this nor `write_rows` is
// inlined, so that the keys and the text do not lie on the stack together.
#[inline(never)]
fn sort_rows(rows: &[Entry], order: &mut [u16])
    requires { (length rows.now ≤ most_lines) × (length order.old ≡ most_lines) }
    ensures { Sorts rows.now (take (length rows.now) order.new) }
{
    let n = rows.len();
    let mut hi = [0u64; 1024];
    let mut lo = [0u64; 1024];
    for (i, &row) in rows.iter().enumerate() {
        let number = row.address.number();
        hi[i] = number.hi;
        lo[i] = number.lo;
    }
    sort_keys(&hi[..n], &lo[..n], order);
}

// ---- put

// Puts the lines of rows as they come.
fn put_rows(rows: &[Entry], text: &mut [u8]) -> usize
    ensures { Puts text.old text.new 0 result (sheet_text rows.now) }
{
    let mut next: usize = 0;
    for &row in rows {
        next = put_line(text, next, row);
    }
    next
}

// Puts the line of a row, if its address is of the family asked for, 4 or 6.
fn put_row(text: &mut [u8], at: usize, row: Entry, family: u8) -> usize
    ensures { Puts text.old text.new at result (sheet_text (of_family family (row ∷ []))) }
{
    if row.address.family() == family {
        return put_line(text, at, row);
    }
    at
}

// Puts the lines of the rows of a family, in an order.
fn put_family(rows: &[Entry], order: &[u16], family: u8, text: &mut [u8], at: usize) -> usize
    requires { Picks rows.now order.now }
    ensures { Puts text.old text.new at result (sheet_text (of_family family (picked rows.now order.now))) }
{
    let mut next = at;
    for &place in order {
        let row = rows[place as usize];
        next = put_row(text, next, row, family);
    }
    next
}

// Puts the lines of rows as they come or, of an order by number, those of IPv4 before those of IPv6.
fn put_arranged(sorted: bool, rows: &[Entry], order: &[u16], text: &mut [u8]) -> usize
    requires { AllEntries rows.now × (sorted ≡ true → Sorts rows.now order.now) }
    ensures { Puts text.old text.new 0 result (sheet_text (arranged sorted rows.now)) }
{
    if !sorted {
        return put_rows(rows, text);
    }
    let next = put_family(rows, order, 4, text, 0);
    put_family(rows, order, 6, text, next)
}

// The text of rows, stored. Of 1,024 lines none is longer than 52 bytes.
#[inline(never)]
fn write_rows(sorted: bool, rows: &[Entry], order: &[u16], out: &mut [u8]) -> Result<usize, Refusal>
    requires { (length rows.now ≤ most_lines) × AllEntries rows.now × (sorted ≡ true → Sorts rows.now order.now) }
    ensures { (writing_answer result ≡ write_answer 0 (sheet_text (arranged sorted rows.now)) out.old) × (out.new ≡ write_leaves 0 (sheet_text (arranged sorted rows.now)) out.old) }
{
    let mut text = [0u8; 53248];
    let end = put_arranged(sorted, rows, order, &mut text);
    store(&text[..end], out)
}

// Respells the addresses of a sheet: writes its lines to the start of `out`, in their order or sorted by address, IPv4 before IPv6 and equal
// addresses in their old order.
pub fn respell(sheet: &[u8], sorted: bool, out: &mut [u8]) -> Result<usize, Refusal>
    ensures { (writing_answer result ≡ respell_answer sorted sheet.now out.old) × (out.new ≡ respell_leaves sorted sheet.now out.old) }
{
    if 65536 < sheet.len() {
        return Err(Refusal::TextTooLong);
    }
    let mut rows = [BLANK; 1024];
    let Some(n) = read_rows(sheet, &mut rows) else {
        return Err(fault(sheet));
    };
    let mut order = [0u16; 1024];
    if sorted {
        sort_rows(&rows[..n], &mut order);
    }
    write_rows(sorted, &rows[..n], &order[..n], out)
}
