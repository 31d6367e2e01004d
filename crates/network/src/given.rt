// The bytes that a network text gives, before the slash, read.
ghost use Rattle.std.specs.Prelude.{◌≡◌, ◌||◌, leb, eqb, length, get_or};
ghost use Rattle.notation.specs.Pieces.{index_of};
ghost use Rattle.ipv4_text.specs.Dotted.{parts_of};
ghost use Rattle.network.specs.GivenBytes.{hex_bytes, given_of, before_slash, as_given};

use digits::read::{find, hex_marked, leading_number};
use ipv4_text::read_parts;

// Whether a text ends at an index, or has a slash there.
fn ends_at(text: &[u8], at: usize) -> bool
    ensures { result ≡ leb (length text.now) at || eqb (get_or text.now at 0) 47 }
{
    if text.len() <= at {
        return true;
    }
    text[at] == b'/'
}

// One to eight hex digits, which fill half bytes from the left. They are read before the slash is looked for, which is behind them.
fn hex_bytes(text: &[u8]) -> Option<(u32, usize, usize)>
    ensures { result ≡ as_given (hex_bytes (before_slash text.now)) (index_of 47 text.now) }
{
    let (value, digits) = leading_number(text, 16, 4294967295)?;
    if !ends_at(text, digits) {
        return None;
    }
    if 8 < digits {
        return None;
    }
    Some((value << (32 - 4 * digits), (digits + 1) / 2, digits))
}

// One to four decimal parts.
fn part_bytes(text: &[u8]) -> Option<(u32, usize, usize)>
    ensures { result ≡ as_given (parts_of (before_slash text.now)) (index_of 47 text.now) }
{
    let slash = find(text, b'/');
    let (value, count) = read_parts(&text[..slash])?;
    Some((value << (32 - 8 * count), count, slash))
}

// Either of them.
pub fn read_given(text: &[u8]) -> Option<(u32, usize, usize)>
    ensures { result ≡ as_given (given_of (before_slash text.now)) (index_of 47 text.now) }
{
    if !hex_marked(text) {
        return part_bytes(text);
    }
    let (value, count, slash) = hex_bytes(&text[2..])?;
    Some((value, count, slash + 2))
}
