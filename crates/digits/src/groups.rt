// A group of IPv6 text: one to four hex digits, which are looked at together, as the four bytes of one number.
ghost use Rattle.std.specs.Prelude.{◌≡◌, [], ◌∷◌, map, get_or};
ghost use Rattle.notation.specs.BigEndian.{number_of};
ghost use Rattle.digits.specs.Numerals.{group_of, leading};
ghost use Rattle.digits.specs.Bytes.{bytes_of, first_four, flag_of, nibble_of};

use crate::read::digit_value;

// The byte at an index, or 0 where there is none.
fn byte_at(text: &[u8], at: usize) -> u8
    ensures { result ≡ get_or text.now at 0 }
{
    text.get(at).copied().unwrap_or(0)
}

// Four bytes as one number, the first of them lowest.
fn quad(a: u8, b: u8, c: u8, d: u8) -> u32
    ensures { bytes_of result ≡ a ∷ b ∷ c ∷ d ∷ [] }
{
    (a as u32) + (b as u32) * 256 + (c as u32) * 65536 + (d as u32) * 16777216
}

// The first four bytes of a text, with 0 for each that it does not have.
fn first_four(text: &[u8]) -> u32
    ensures { bytes_of result ≡ first_four text.now }
{
    if 4 <= text.len() {
        return quad(text[0], text[1], text[2], text[3]);
    }
    quad(
        byte_at(text, 0),
        byte_at(text, 1),
        byte_at(text, 2),
        byte_at(text, 3),
    )
}

// For each of four bytes 128 if it is no hex digit, else 0. No byte carries into the next, and the top bit of a sum or difference tells
// on which side of a bound a byte lies: 48 and 57 about the digits, 97 and 102 about the letters in lower case.
fn flags(w: u32) -> u32
    ensures { bytes_of result ≡ map flag_of (bytes_of w) }
{
    let x = w & 0x7f7f_7f7f;
    let y = x | 0x2020_2020;
    let digit = (0xafaf_afaf - x) ^ (x + 0x4646_4646);
    let letter = (y + 0x1f1f_1f1f) ^ (y + 0x1919_1919);
    (digit ^ letter | w) & 0x8080_8080
}

// The number that four bytes write as hex digits. Bit 6 tells a letter, which counts 9 more than its low bits.
fn packed(w: u32) -> u32
    ensures { result ≡ number_of 16 (map nibble_of (bytes_of w)) }
{
    let v = ((w & 0x0f0f_0f0f) + (w & 0x4040_4040) / 64 * 9) & 0x0f0f_0f0f;
    let t = v * 16 + v / 256;
    t % 256 * 256 + t / 65536 % 256
}

// One to four hex digits. Four have a branch of their own, so that the next group need not wait for the count.
pub fn leading_group(text: &[u8]) -> Option<(u32, usize)>
    ensures { result ≡ leading 16 group_of text.now }
{
    let w = first_four(text);
    let count = u32::trailing_zeros(flags(w)) / 8;
    if 3 < count {
        if digit_value(byte_at(text, 4)) < 16 {
            return None;
        }
        return Some((packed(w), 4));
    }
    if count == 0 {
        return None;
    }
    Some((packed(w) >> (16 - 4 * count), count as usize))
}
