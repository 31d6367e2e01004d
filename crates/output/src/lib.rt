// Text put together in a lent array.
#![tactic(auto)]

ghost use Rattle.std.specs.Prelude.{◌≡◌, cond, [], ◌∷◌, ◌<◌};
ghost use Rattle.digits.specs.Numerals.{numeral, decimal, hex, digit_byte};
ghost use Rattle.output.specs.Placing.{Puts};

// Puts a byte at an index of the text, if there is room, and answers the next index. What puts stands outside 01, where a buffer that is too
// short is refusal 3: it cuts, and a caller that must not cut has the room.
pub fn put(text: &mut [u8], at: usize, byte: u8) -> usize
    ensures { Puts text.old text.new at result (byte ∷ []) }
{
    if text.len() <= at {
        return at;
    }
    text[at] = byte;
    at + 1
}

// The same, if it is wanted.
pub fn put_if(text: &mut [u8], at: usize, wanted: bool, byte: u8) -> usize
    ensures { Puts text.old text.new at result (cond wanted (byte ∷ []) []) }
{
    if wanted {
        return put(text, at, byte);
    }
    at
}

// Puts bytes one after the other, as many as there is room for.
pub fn put_bytes(text: &mut [u8], at: usize, bytes: &[u8]) -> usize
    ensures { Puts text.old text.new at result bytes.now }
{
    let mut next = at;
    for &byte in bytes {
        if text.len() <= next {
            return next;
        }
        text[next] = byte;
        next += 1;
    }
    next
}

// Puts a number in decimal.
pub fn put_decimal(text: &mut [u8], at: usize, n: u8) -> usize
    ensures { Puts text.old text.new at result (decimal n) }
{
    let tens = put_if(text, at, 100 <= n, 48 + n / 100);
    let ones = put_if(text, tens, 10 <= n, 48 + n / 10 % 10);
    put(text, ones, 48 + n % 10)
}

// Puts a number of up to 20 digits in decimal, from the highest place that a `u64` reaches.
pub fn put_number(text: &mut [u8], at: usize, n: u64) -> usize
    ensures { Puts text.old text.new at result (numeral 10 20 n) }
{
    let mut next = at;
    let mut place: u64 = 10000000000000000000;
    while 10 <= place {
        next = put_if(text, next, place <= n, 48 + (n / place % 10) as u8);
        place /= 10;
    }
    put(text, next, 48 + (n % 10) as u8)
}

// The byte of a hex digit, in lower case.
fn digit_byte(d: u16) -> u8
    requires { d < 16 }
    ensures { result ≡ digit_byte d }
{
    if d < 10 { 48 + d as u8 } else { 87 + d as u8 }
}

// Puts a number in hexadecimal.
pub fn put_hex(text: &mut [u8], at: usize, n: u16) -> usize
    ensures { Puts text.old text.new at result (hex n) }
{
    let b = put_if(text, at, 4096 <= n, digit_byte(n / 4096));
    let c = put_if(text, b, 256 <= n, digit_byte(n / 256 % 16));
    let d = put_if(text, c, 16 <= n, digit_byte(n / 16 % 16));
    put(text, d, digit_byte(n % 16))
}
