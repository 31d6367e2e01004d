// A line of the acidity sheet: an address, a volume and a pH, read and written.
#![tactic(auto)]

ghost use Rattle.std.specs.Prelude.{◌≡◌, ◌<◌, length, Some};
ghost use Rattle.digits.specs.Numerals.{as_leading, leading_zero, numeral};
ghost use Rattle.output.specs.Placing.{Puts};
ghost use Rattle.sheet_lines.specs.Lines.{number_to, address_of, volume_of, ph_of, entry_of, line_entry, entry_line};
ghost use Rattle.sheet_lines.specs.Inner.{digit_at};

use address::Address;
use digits::read::{find, leading_number};
use normal::put_address;
use output::{put, put_if};
use text::read_address;

// What a line holds: an address, a volume from 1 to 999,999, and a pH in hundredths from 0 to 1400. The fields of a value are not checked.
#[derive(Clone, Copy)]
pub struct Entry {
    pub address: Address,
    pub volume: u32,
    pub ph: u16,
}

// ---- read

// Whether two or more bytes begin with the digit 0.
fn leading_zero(text: &[u8]) -> bool
    ensures { result ≡ leading_zero text.now }
{
    if text.len() < 2 {
        return false;
    }
    text[0] == b'0'
}

// A whole text that is a decimal number of at most `most`, with no leading zero but in `0`: the number, and how many digits it has.
fn whole_number(text: &[u8], most: u32) -> Option<(u32, usize)>
    ensures { result ≡ as_leading (number_to most text.now) (length text.now) }
{
    if leading_zero(text) {
        return None;
    }
    let (value, count) = leading_number(text, 10, most)?;
    if count < text.len() {
        return None;
    }
    Some((value, count))
}

// The entry of an address and the texts of a volume and a pH.
fn read_numbers(address: Address, volume: &[u8], ph: &[u8]) -> Option<Entry>
    ensures { result ≡ (entry_of (Some address) (volume_of volume.now) (ph_of ph.now)) }
{
    let (volume, _) = whole_number(volume, 999999)?;
    if volume < 1 {
        return None;
    }
    let (ph, _) = whole_number(ph, 1400)?;
    Some(Entry {
        address,
        volume,
        ph: ph as u16,
    })
}

// The entry of three texts.
fn read_fields(address: &[u8], volume: &[u8], ph: &[u8]) -> Option<Entry>
    ensures { result ≡ (entry_of (address_of address.now) (volume_of volume.now) (ph_of ph.now)) }
{
    let address = read_address(address, 0).ok()?;
    read_numbers(address, volume, ph)
}

// The entry of a line, which is handed in without its newline.
pub fn read_line(line: &[u8]) -> Option<Entry>
    ensures { result ≡ (line_entry line.now) }
{
    let first = find(line, b',');
    if line.len() <= first {
        return None;
    }
    let rest = &line[first + 1..];
    let second = find(rest, b',');
    if rest.len() <= second {
        return None;
    }
    read_fields(&line[..first], &rest[..second], &rest[second + 1..])
}

// ---- written

// Puts the digit of a place, if the number reaches it.
fn put_place(text: &mut [u8], at: usize, n: u32, place: u32) -> usize
    requires { 0 < place }
    ensures { Puts text.old text.new at result (digit_at place n) }
{
    put_if(text, at, place <= n, 48 + (n / place % 10) as u8)
}

// Puts a number in decimal. The places are constants, so that the compiler divides by none of them.
fn put_digits(text: &mut [u8], at: usize, n: u32) -> usize
    ensures { Puts text.old text.new at result (numeral 10 10 n) }
{
    let a = put_place(text, at, n, 1000000000);
    let b = put_place(text, a, n, 100000000);
    let c = put_place(text, b, n, 10000000);
    let d = put_place(text, c, n, 1000000);
    let e = put_place(text, d, n, 100000);
    let f = put_place(text, e, n, 10000);
    let g = put_place(text, f, n, 1000);
    let h = put_place(text, g, n, 100);
    let i = put_place(text, h, n, 10);
    put(text, i, 48 + (n % 10) as u8)
}

// Puts the line of an entry with its newline at an index of the text, and answers the next index. It stands outside 01, where a buffer that is
// too short is refusal 3: a line without room is cut.
pub fn put_line(text: &mut [u8], at: usize, entry: Entry) -> usize
    ensures { Puts text.old text.new at result (entry_line entry) }
{
    let address = entry.address;
    let a = put_address(text, at, address);
    let b = put(text, a, b',');
    let c = put_digits(text, b, entry.volume);
    let d = put(text, c, b',');
    let e = put_digits(text, d, entry.ph as u32);
    put(text, e, b'\n')
}
