// An address as octets: 4 or 16 bytes in network order.
#![tactic(auto)]

ghost use Rattle.std.specs.Prelude.{◌≡◌, reverse, ◌+◌, ◌*◌, ◌≤◌, length, take, drop};
ghost use Rattle.notation.specs.BigEndian.{digits_of, number_of};
ghost use Rattle.address.specs.Answers.{reading_answer, writing_answer, write_answer, write_leaves};
ghost use Rattle.octets.specs.Octets.{octets, octets_answer};

use address::{Address, Refusal};

// Puts four bytes at the start of `out`, where there is room for them. Else it puts nothing, outside 01, which gives refusal 3.
pub fn put_four(v: u32, out: &mut [u8])
    ensures { out.new ≡ write_leaves 0 (digits_of 256 4 v) out.old }
{
    if out.len() < 4 {
        return;
    }
    out[0] = (v / 16777216) as u8;
    out[1] = (v / 65536 % 256) as u8;
    out[2] = (v / 256 % 256) as u8;
    out[3] = (v % 256) as u8;
}

// The same of eight bytes, outside 01 as well.
pub fn put_eight(v: u64, out: &mut [u8])
    ensures { out.new ≡ write_leaves 0 (digits_of 256 8 v) out.old }
{
    if out.len() < 8 {
        return;
    }
    put_four((v / 4294967296) as u32, out);
    put_four((v % 4294967296) as u32, &mut out[4..]);
}

// Puts the address at the start of `out`, where there is room for it.
pub fn write_octets(address: Address, out: &mut [u8]) -> Result<usize, Refusal>
    ensures { (writing_answer result ≡ write_answer 0 (octets address) out.old) × (out.new ≡ write_leaves 0 (octets address) out.old) }
{
    match address {
        Address::V4(v) => {
            if out.len() < 4 {
                return Err(Refusal::NoRoom);
            }
            put_four(v, out);
            Ok(4)
        }
        Address::V6(hi, lo) => {
            if out.len() < 16 {
                return Err(Refusal::NoRoom);
            }
            put_eight(hi, out);
            put_eight(lo, &mut out[8..]);
            Ok(16)
        }
    }
}

// Four bytes as one number, the first of them lowest.
fn quad(a: u8, b: u8, c: u8, d: u8) -> u32
    ensures { result ≡ ((d * 256 + c) * 256 + b) * 256 + a }
{
    (a as u32) + (b as u32) * 256 + (c as u32) * 65536 + (d as u32) * 16777216
}

// The number of the four bytes from `at` on, the first of them lowest: so the machine has them, and the compiler loads all four at once.
fn little(bytes: &[u8], at: usize) -> u32
    requires { at + 4 ≤ length bytes.now }
    ensures { result ≡ number_of 256 (reverse (take 4 (drop at bytes.now))) }
{
    quad(bytes[at], bytes[at + 1], bytes[at + 2], bytes[at + 3])
}

// The number with its four bytes in the other order.
fn swapped(v: u32) -> u32
    ensures { result ≡ number_of 256 (reverse (digits_of 256 4 v)) }
{
    v % 256 * 16777216 + v / 256 % 256 * 65536 + v / 65536 % 256 * 256 + v / 16777216
}

// The number of the four bytes from `at` on, the first of them highest.
fn four(bytes: &[u8], at: usize) -> u32
    requires { at + 4 ≤ length bytes.now }
    ensures { result ≡ number_of 256 (take 4 (drop at bytes.now)) }
{
    swapped(little(bytes, at))
}

// Two numbers of four bytes as one of eight.
fn pair(hi: u32, lo: u32) -> u64
    ensures { result ≡ hi * 4294967296 + lo }
{
    (hi as u64) * 4294967296 + (lo as u64)
}

// The number of the eight bytes from `at` on.
fn eight(bytes: &[u8], at: usize) -> u64
    requires { at + 8 ≤ length bytes.now }
    ensures { result ≡ number_of 256 (take 8 (drop at bytes.now)) }
{
    pair(four(bytes, at), four(bytes, at + 4))
}

// The address that four or sixteen bytes are.
pub fn read_octets(bytes: &[u8]) -> Result<Address, Refusal>
    ensures { reading_answer result ≡ octets_answer bytes.now }
{
    if bytes.len() == 4 {
        return Ok(Address::V4(four(bytes, 0)));
    }
    if bytes.len() == 16 {
        return Ok(Address::V6(eight(bytes, 0), eight(bytes, 8)));
    }
    Err(Refusal::Malformed)
}
