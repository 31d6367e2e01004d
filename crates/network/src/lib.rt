// The network form of IPv4: a network number and its size, read and written.
#![tactic(auto)]

ghost use Rattle.std.specs.Prelude.{◌≡◌, cond, [], ◌∷◌, ◌≤◌, max, take};
ghost use Rattle.notation.specs.BigEndian.{digits_of};
ghost use Rattle.address.specs.Answers.{answer, write_refusal, write_leaves, writing_answer, write_answer};
ghost use Rattle.address.specs.Addresses.{number};
ghost use Rattle.digits.specs.Numerals.{decimal};
ghost use Rattle.output.specs.Placing.{Puts};
ghost use Rattle.network.specs.NetworkText.{size_bytes, cleared, network_text, write_network_refusal};
ghost use Rattle.network.specs.Network.{class_size, widened, network_reading_answer, network_answer, network_leaves};

use address::{Address, Refusal};
use digits::parts::whole_part;
use given::read_given;
use octets::put_four;
use output::{put, put_decimal};
use store::store;

mod given;

// ---- reading

// The size that the first byte tells.
fn class_size(first: u8) -> u8
    ensures { result ≡ class_size first }
{
    match first {
        240..=255 => 32,
        224..=239 => 4,
        192..=223 => 24,
        128..=191 => 16,
        _ => 8,
    }
}

// The size made eight times the bytes given, where it is 8 or more and they are more than it holds.
fn widen(count: usize, size: u8) -> u8
    requires { count ≤ 4 }
    ensures { result ≡ widened count size }
{
    let given = 8 * (count as u8);
    if size < 8 {
        return size;
    }
    size.max(given)
}

// Stores the bytes given, and zeros behind them as far as the size goes.
fn store_network(value: u32, count: usize, size: u8, out: &mut [u8]) -> Result<(u8, usize), Refusal>
    requires { (count ≤ 4) × (size ≤ 32) }
    ensures { (network_reading_answer result ≡ answer (0, 0) (write_refusal 0 (take (max count (size_bytes size)) (digits_of 256 4 value)) out.old) (size, max count (size_bytes size))) × (out.new ≡ write_leaves 0 (take (max count (size_bytes size)) (digits_of 256 4 value)) out.old) }
{
    let mut octets = [0u8; 4];
    put_four(value, &mut octets);
    let n = count.max(((size + 7) / 8) as usize);
    let written = store(&octets[..n], out)?;
    Ok((size, written))
}

// Reads a network text, and writes its bytes to the start of `out`.
pub fn read_network(text: &[u8], out: &mut [u8]) -> Result<(u8, usize), Refusal>
    ensures { (network_reading_answer result ≡ network_answer text.now out.old) × (out.new ≡ network_leaves text.now out.old) }
{
    if 64 < text.len() {
        return Err(Refusal::TextTooLong);
    }
    let (value, count, slash) = read_given(text).ok_or(Refusal::Malformed)?;
    if text.len() <= slash {
        let size = widen(count, class_size((value / 16777216) as u8));
        return store_network(value, count, size, out);
    }
    let (size, _) = whole_part(&text[slash + 1..], 999).ok_or(Refusal::Malformed)?;
    if 32 < size {
        return Err(Refusal::LengthTooLarge);
    }
    store_network(value, count, size as u8, out)
}

// ---- writing

// The number with the bits beyond the size cleared.
fn clear(v: u32, size: u8) -> u32
    requires { size ≤ 32 }
    ensures { result ≡ cleared 32 size v }
{
    let beyond = 1u64 << (32 - size);
    v - ((v as u64) % beyond) as u32
}

// Puts a dot and an octet, if it is wanted.
fn put_octet(text: &mut [u8], at: usize, wanted: bool, octet: u8) -> usize
    ensures { Puts text.old text.new at result (cond wanted (46 ∷ decimal octet) []) }
{
    if wanted {
        let next = put(text, at, b'.');
        return put_decimal(text, next, octet);
    }
    at
}

// Puts the network text at the start of the text, as far as there is room.
fn put_network(text: &mut [u8], v: u32, size: u8) -> usize
    requires { size ≤ 32 }
    ensures { Puts text.old text.new 0 result (network_text v size) }
{
    let v = clear(v, size);
    let a = put_decimal(text, 0, (v / 16777216) as u8);
    let b = put_octet(text, a, 8 < size, (v / 65536 % 256) as u8);
    let c = put_octet(text, b, 16 < size, (v / 256 % 256) as u8);
    let d = put_octet(text, c, 24 < size, (v % 256) as u8);
    let e = put(text, d, b'/');
    put_decimal(text, e, size)
}

// Writes the network text of an IPv4 address and a size to the start of `out`, where there is room for it.
pub fn write_network(address: Address, size: u8, out: &mut [u8]) -> Result<usize, Refusal>
    ensures { (writing_answer result ≡ write_answer (write_network_refusal address size) (network_text (number address) size) out.old) × (out.new ≡ write_leaves (write_network_refusal address size) (network_text (number address) size) out.old) }
{
    let Address::V4(v) = address else {
        return Err(Refusal::WrongFamily);
    };
    if 32 < size {
        return Err(Refusal::LengthTooLarge);
    }
    let mut text = [0u8; 24];
    let n = put_network(&mut text, v, size);
    store(&text[..n], out)
}
