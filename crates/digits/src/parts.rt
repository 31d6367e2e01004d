// Decimal parts: numbers of one to three digits, as addresses, sizes and lengths have them.
ghost use Rattle.std.specs.Prelude.{◌≡◌, cond, drop, length, Some};
ghost use Rattle.digits.specs.Numerals.{at_most, part_of, as_leading, leading};
ghost use Rattle.digits.specs.Decimals.{decimal_of};

// The decimal digit at an index, or 32 where there is none.
fn decimal_at(text: &[u8], at: usize) -> u8
    ensures { result ≡ decimal_of (drop at text.now) }
{
    if text.len() <= at {
        return 32;
    }
    let c = text[at];
    match c {
        48..=57 => c - 48,
        _ => 32,
    }
}

// The number, where it is at most `most`.
fn at_most(value: u32, count: usize, most: u32) -> Option<(u32, usize)>
    ensures { result ≡ as_leading (at_most most (Some value)) count }
{
    if most < value {
        return None;
    }
    Some((value, count))
}

// The first number or the second, for the compiler to choose without a branch: the lengths of parts follow no pattern.
fn choose(first: bool, a: u32, b: u32) -> u32
    ensures { result ≡ cond first a b }
{
    if first { a } else { b }
}

// A decimal part that is at most `most`: one to three digits, no leading zero but in `0`.
pub fn leading_part(text: &[u8], most: u32) -> Option<(u32, usize)>
    ensures { result ≡ leading 10 (part_of most) text.now }
{
    let a = decimal_at(text, 0);
    if 9 < a {
        return None;
    }
    let b = decimal_at(text, 1);
    if 9 < b {
        return at_most(a as u32, 1, most);
    }
    if a < 1 {
        return None;
    }
    let c = decimal_at(text, 2);
    let two = (a as u32) * 10 + (b as u32);
    let value = choose(c <= 9, two * 10 + (c as u32), two);
    let count = choose(c <= 9, 3, 2) as usize;
    if decimal_at(text, count) <= 9 {
        return None;
    }
    at_most(value, count, most)
}

// A whole text that is such a part: its number, and how many digits it has.
pub fn whole_part(text: &[u8], most: u32) -> Option<(u32, usize)>
    ensures { result ≡ as_leading (part_of most text.now) (length text.now) }
{
    let (value, count) = leading_part(text, most)?;
    if count < text.len() {
        return None;
    }
    Some((value, count))
}
