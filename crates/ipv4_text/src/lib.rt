// IPv4 text: four decimal parts with dots, read and written.
#![tactic(auto)]

ghost use Rattle.std.specs.Prelude.{◌≡◌};
ghost use Rattle.output.specs.Placing.{Puts};
ghost use Rattle.ipv4_text.specs.Dotted.{as_parts, parts_of, dotted_of, dotted_text};

use digits::parts::leading_part;
use output::{put, put_decimal};

// One to four decimal parts with dots between them.
pub fn read_parts(text: &[u8]) -> Option<(u32, usize)>
    ensures { result ≡ as_parts (parts_of text.now) }
{
    let mut rest = text;
    let mut value: u32 = 0;
    for n in 0..4 {
        let (part, end) = leading_part(rest, 255)?;
        value = value * 256 + part;
        if rest.len() <= end {
            return Some((value, n + 1));
        }
        if rest[end] != b'.' {
            return None;
        }
        rest = &rest[end + 1..];
    }
    None
}

// The number of a strict IPv4 text.
pub fn read_dotted(text: &[u8]) -> Option<u32>
    ensures { result ≡ dotted_of text.now }
{
    let (value, count) = read_parts(text)?;
    if count < 4 {
        return None;
    }
    Some(value)
}

// Puts the four octets of a number in decimal, with dots between them, and answers the next index. As `put`, it stands outside 01: a text
// without room is cut.
pub fn put_dotted(text: &mut [u8], at: usize, v: u32) -> usize
    ensures { Puts text.old text.new at result (dotted_text v) }
{
    let a = put_decimal(text, at, (v / 16777216) as u8);
    let b = put(text, a, b'.');
    let c = put_decimal(text, b, (v / 65536 % 256) as u8);
    let d = put(text, c, b'.');
    let e = put_decimal(text, d, (v / 256 % 256) as u8);
    let f = put(text, e, b'.');
    put_decimal(text, f, (v % 256) as u8)
}
