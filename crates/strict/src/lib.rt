// Strict text of IPv4 and IPv6 addresses, read: the address, or why not and where. The place of a fault is found after the refusal, so that
// reading good text does not pay for it.
#![tactic(auto)]

ghost use Rattle.std.specs.Prelude.{◌≡◌, cond, min, max, drop};
ghost use Rattle.digits.specs.Numerals.{part_of};
ghost use Rattle.address.specs.Answers.{refusal_number};
ghost use Rattle.strict.specs.Inner.{goes_on, refused_place};
ghost use Rattle.strict.specs.StrictReading.{strict_reading_answer};
ghost use Rattle.place.specs.Place.{byte_then, begins, present, part_front, parts_place, dotted_place, group_front, behind_place, groups_place, eight_place, fault_place, placed_answer};

use address::{Address, Refusal};
use digits::parts::whole_part;
use digits::read::leading_number;

// Why a text is refused, and the place of the fault, which is 0 but for `Malformed`.
#[derive(Clone, Copy)]
pub struct Fault {
    pub why: Refusal,
    pub place: u8,
}

// Whether a byte stands at an index.
fn has(text: &[u8], at: usize, byte: u8) -> bool
    ensures { result ≡ begins byte (drop at text.now) }
{
    if text.len() <= at {
        return false;
    }
    text[at] == byte
}

// Whether a piece of `n` bytes goes on with a byte: there is a piece, and the byte behind it.
fn goes_on(text: &[u8], n: usize, byte: u8) -> bool
    ensures { result ≡ goes_on byte n text.now }
{
    if n == 0 {
        return false;
    }
    has(text, n, byte)
}

fn is_part(text: &[u8]) -> bool
    ensures { result ≡ present (part_of 255 text.now) }
{
    let Some((_, _)) = whole_part(text, 255) else {
        return false;
    };
    true
}

// The length of the longest part that a text begins with.
fn part_front(text: &[u8]) -> usize
    ensures { result ≡ part_front text.now }
{
    for n in (1..=text.len().min(3)).rev() {
        if is_part(&text[..n]) {
            return n;
        }
    }
    0
}

// The place in a text of a part and `more` parts behind it, with single dots.
fn parts_place(text: &[u8], more: usize) -> usize
    ensures { result ≡ parts_place more text.now }
{
    let n = part_front(text);
    if more == 0 {
        return n;
    }
    if !goes_on(text, n, b'.') {
        return n;
    }
    n + 1 + parts_place(&text[n + 1..], more - 1)
}

// How many hex digits of a group a text begins with. `leading_group` reads the groups of good text, and with a second caller the compiler would
// call it where it is put into the loop that reads them.
fn group_front(text: &[u8]) -> usize
    ensures { result ≡ group_front text.now }
{
    let n = text.len().min(4);
    let Some((_, count)) = leading_number(&text[..n], 16, 65535) else {
        return 0;
    };
    count
}

// The place in an IPv4 text, where one may stand.
fn tail_place(text: &[u8], may: bool) -> usize
    ensures { result ≡ cond may (dotted_place text.now) 0 }
{
    if may { parts_place(text, 3) } else { 0 }
}

// The place in what stands behind `::`, where `room` groups have room.
fn behind_place(text: &[u8], room: usize) -> usize
    ensures { result ≡ behind_place room text.now }
{
    if room == 0 {
        return 0;
    }
    let n = group_front(text);
    if room == 1 {
        return n;
    }
    let dotted = parts_place(text, 3);
    if !goes_on(text, n, b':') {
        return dotted.max(n);
    }
    dotted.max(n + 1 + behind_place(&text[n + 1..], room - 1))
}

// The place in the second colon of `::` and what stands behind it.
fn gap_place(text: &[u8], room: usize) -> usize
    ensures { result ≡ byte_then 58 (behind_place room) text.now }
{
    if !has(text, 0, b':') {
        return 0;
    }
    1 + behind_place(&text[1..], room)
}

// The place in a text of a group and `more` groups behind it, of which `::` may stand for some.
fn groups_place(text: &[u8], more: usize) -> usize
    ensures { result ≡ groups_place more text.now }
{
    let n = group_front(text);
    if more == 0 {
        return n;
    }
    let dotted = tail_place(text, more == 1);
    if !goes_on(text, n, b':') {
        return dotted.max(n);
    }
    let rest = &text[n + 1..];
    let behind = gap_place(rest, more - 1).max(groups_place(rest, more - 1));
    dotted.max(n + 1 + behind)
}

// The place in an IPv6 text.
fn eight_place(text: &[u8]) -> usize
    ensures { result ≡ eight_place text.now }
{
    let groups = groups_place(text, 7);
    if !has(text, 0, b':') {
        return groups;
    }
    (1 + gap_place(&text[1..], 7)).max(groups)
}

// The place in a text of family 4, of family 6, or else of either: the length of its longest beginning that some accepted text has too. A
// function that calls itself is not put into its caller, so that reading good text saves no registers for this.
fn fault_place(text: &[u8], family: u8) -> usize
    ensures { result ≡ fault_place family text.now }
{
    if family == 4 {
        return parts_place(text, 3);
    }
    if family == 6 {
        return eight_place(text);
    }
    fault_place(text, 4).max(fault_place(text, 6))
}

// The place that a refusal of a text carries; none is above 45.
fn refused_place(why: Refusal, text: &[u8], family: u8) -> u8
    ensures { result ≡ refused_place (refusal_number why) family text.now }
{
    match why {
        Refusal::Malformed => fault_place(text, family) as u8,
        _ => 0,
    }
}

// The address of a strict text of a family: 4, 6, or 0 for either.
pub fn read_address(text: &[u8], family: u8) -> Result<Address, Fault>
    ensures { strict_reading_answer result ≡ placed_answer family text.now }
{
    match text::read_address(text, family) {
        Ok(address) => Ok(address),
        Err(why) => {
            let place = refused_place(why, text, family);
            Err(Fault { why, place })
        }
    }
}
