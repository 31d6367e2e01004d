// Ranges of addresses into the fewest blocks, as records in a lent buffer. A range of IPv6 addresses that is not all of them is three runs
// at most, each of which differs in one half only, so that the same loops, among numbers of 64 bits, serve both families.
#![tactic(auto)]

ghost use Rattle.std.specs.Prelude.{◌≡◌, ℕ, ◌+◌, ◌-◌, ◌*◌, ◌^◌, ◌<◌, ◌≤◌, not, length, ◌==◌, nat_le, nat_lt};
ghost use Rattle.wide.specs.Value.{value};
ghost use Rattle.cover.specs.Blocks.{range_blocks};
ghost use Rattle.address.specs.Addresses.{width};
ghost use Rattle.output.specs.Placing.{Puts, PutsAll};
ghost use Rattle.records.specs.Records.{record_size, block_record, records_of};
ghost use Rattle.runs.specs.Runs.{Lower, Upper, RunIs, lane_of, lane_bits, lane_width, lane_record, run_records, Parts, RunFits, Climbs, Climbed, FirstRun};

use address::{Address, Block};
use records::fill_record;
use wide::Wide;

// The largest half.
const MOST: u64 = 0xffff_ffff_ffff_ffff;

// A run counts in some of the bits of its addresses, its lane: all of an IPv4 address, the upper half of an IPv6 address above a lower half
// of 0, or the lower half below the upper half `hi`. `longest` tells which: the length of the block of a single number, 32, 64 or 128.
// Both are plain numbers, so that the compiler tests them outside of the loops.

// The block of the 2 ^ bits numbers from start on.
fn lane_block(longest: u32, hi: u64, start: u64, bits: u32) -> Block
    requires { (start < 2 ^ lane_bits (lane_of longest hi)) × (bits ≤ lane_bits (lane_of longest hi)) }
    ensures { (block_record result ≡ lane_record (lane_of longest hi) start bits) × (width result.address ≡ lane_width (lane_of longest hi)) }
{
    if longest == 32 {
        return Block {
            address: Address::V4(start as u32),
            length: (32 - bits) as u8,
        };
    }
    if longest == 64 {
        return Block {
            address: Address::V6(start, 0),
            length: (64 - bits) as u8,
        };
    }
    Block {
        address: Address::V6(hi, start),
        length: (128 - bits) as u8,
    }
}

// How many bytes a record has.
fn lane_size(longest: u32) -> usize
    ensures { (hi : ℕ) → result ≡ record_size (lane_width (lane_of longest hi)) }
{
    if longest == 32 { 5 } else { 17 }
}

// Puts the record of the 2 ^ bits numbers from start on into what is still free of `out`, and answers the next index.
fn put_one(longest: u32, hi: u64, start: u64, bits: u32, out: &mut [u8], at: usize) -> usize
    requires { (start < 2 ^ lane_bits (lane_of longest hi)) × (bits ≤ lane_bits (lane_of longest hi)) × (at + record_size (lane_width (lane_of longest hi)) ≤ length out.old) }
    ensures { Puts out.old out.new at result (lane_record (lane_of longest hi) start bits) }
{
    fill_record(lane_block(longest, hi, start, bits), &mut out[at..]);
    at + lane_size(longest)
}

// How many numbers the rising and the falling part of a run have.
#[derive(Clone, Copy)]
struct Split {
    rise: u64,
    fall: u64,
}

// The parts of a run of fewer than 2 ^ 64 numbers. Of the largest power of two that is not above how many they are, the first multiple in
// the run is where the blocks cease to grow.
fn cut(first: u64, last: u64) -> Split
    requires { (first ≤ last) × (last - first < 18446744073709551615) }
    ensures { Parts first last result.rise result.fall }
{
    let left = last - first + 1;
    let size = 1u64 << (63 - u64::leading_zeros(left));
    let rise = (size - first % size) % size;
    Split {
        rise,
        fall: left - rise,
    }
}

// How many blocks the run from first to last turns into, at any width that has its numbers: one for each one bit of either part.
fn run_count(first: u64, last: u64) -> usize
    requires { (first ≤ last) × (last - first < 18446744073709551615) }
    ensures { (W : ℕ) → last < 2 ^ W → result ≡ length (range_blocks W first last) }
{
    let parts = cut(first, last);
    let rise = parts.rise;
    let fall = parts.fall;
    (u64::count_ones(rise) + u64::count_ones(fall)) as usize
}

// Puts the records of the rising part of a run: each block is as large as its start has trailing zeros. Answers the next index.
fn put_rising(longest: u32, hi: u64, first: u64, rise: u64, out: &mut [u8], at: usize) -> usize
    requires { Climbs (lane_of longest hi) first rise at out.old }
    ensures { Climbed (lane_of longest hi) first rise out.old at out.new result }
{
    let mut start = first;
    let mut left = rise;
    let mut next = at;
    while 0 < left {
        let bits = u64::trailing_zeros(start);
        next = put_one(longest, hi, start, bits, out, next);
        let size = 1u64 << bits;
        left -= size;
        start += size;
    }
    next
}

// Puts the records of the falling part: each block is the largest that what is left has room for. Answers the next index.
fn put_falling(longest: u32, hi: u64, first: u64, fall: u64, out: &mut [u8], at: usize) -> usize
    requires { RunFits (lane_of longest hi) first (first + fall - 1) at out.old × Parts first (first + fall - 1) 0 fall }
    ensures { Puts out.old out.new at result (run_records (lane_of longest hi) first (first + fall - 1)) }
{
    let mut start = first;
    let mut left = fall;
    let mut next = at;
    while 0 < left {
        let bits = 63 - u64::leading_zeros(left);
        next = put_one(longest, hi, start, bits, out, next);
        let size = 1u64 << bits;
        left -= size;
        // behind the last number of all there is no other, and nothing is left
        start = std::num::wrapping_add_u64(start, size);
    }
    next
}

// Puts the records of both parts. A function of its own, so that the compiler makes it once and puts what comes before into the callers.
fn put_parts(
    longest: u32,
    hi: u64,
    first: u64,
    rise: u64,
    fall: u64,
    out: &mut [u8],
    at: usize,
) -> usize
    requires { RunFits (lane_of longest hi) first (first + rise + fall - 1) at out.old × Parts first (first + rise + fall - 1) rise fall }
    ensures { Puts out.old out.new at result (run_records (lane_of longest hi) first (first + rise + fall - 1)) }
{
    let next = put_rising(longest, hi, first, rise, out, at);
    put_falling(longest, hi, first + rise, fall, out, next)
}

// Puts the records of the run from first to last at an index of `out`, and answers the next index. A run that is one block takes no loop.
fn put_run(longest: u32, hi: u64, first: u64, last: u64, out: &mut [u8], at: usize) -> usize
    requires { RunFits (lane_of longest hi) first last at out.old }
    ensures { Puts out.old out.new at result (run_records (lane_of longest hi) first last) }
{
    let parts = cut(first, last);
    let rise = parts.rise;
    let fall = parts.fall;
    if rise == 0 {
        let bits = 63 - u64::leading_zeros(fall);
        if fall <= 1u64 << bits {
            return put_one(longest, hi, first, bits, out, at);
        }
    }
    put_parts(longest, hi, first, rise, fall, out, at)
}

// A run of IPv6 addresses, and the address that it ends at.
#[derive(Clone, Copy)]
struct Run {
    longest: u32,
    hi: u64,
    first: u64,
    last: u64,
    end: Wide,
}

// The lower halves from first to last, below an upper half.
fn lower_run(hi: u64, first: u64, last: u64) -> Run
    ensures { RunIs result (Lower hi) first last (hi * 2 ^ 64 + last) }
{
    Run {
        longest: 128,
        hi,
        first,
        last,
        end: Wide { hi, lo: last },
    }
}

// The upper halves from first to last, each with all its lower halves.
fn upper_run(first: u64, last: u64) -> Run
    ensures { RunIs result Upper first last (last * 2 ^ 64 + 18446744073709551615) }
{
    Run {
        longest: 64,
        hi: 0,
        first,
        last,
        end: Wide { hi: last, lo: MOST },
    }
}

// The first run of the range of IPv6 addresses from first to last: up to the end of its lower half, over all whole lower halves, or into
// the last one.
fn next_run(first: Wide, last: Wide) -> Run
    requires { (value first ≤ value last) × (value last - value first < 2 ^ 128 - 1) }
    ensures { FirstRun 128 (value first) (value last) (lane_of result.longest result.hi) result.first result.last (value result.end) }
{
    let ah = first.hi;
    let al = first.lo;
    let bh = last.hi;
    let bl = last.lo;
    if bh <= ah {
        if MOST <= bl - al {
            return upper_run(ah, bh);
        }
        return lower_run(ah, al, bl);
    }
    if 0 < al {
        return lower_run(ah, al, MOST);
    }
    if MOST <= bl {
        return upper_run(ah, bh);
    }
    upper_run(ah, bh - 1)
}

// Whether the range is all IPv6 addresses: their number has no room in 128 bits.
fn is_all(first: Wide, last: Wide) -> bool
    ensures { result ≡ (value last - value first == 2 ^ 128 - 1) }
{
    last.saturating_sub(first) == Wide::ones(128)
}

// Whether a run that reaches so far is the last of the range.
fn is_last(reached: Wide, last: Wide) -> bool
    ensures { result ≡ not (nat_lt (value reached) (value last)) }
{
    last <= reached
}

// How many blocks a range of IPv6 addresses turns into, run after run.
fn count_runs(first: Wide, last: Wide) -> usize
    requires { value first ≤ value last }
    ensures { result ≡ length (range_blocks 128 (value first) (value last)) }
{
    if is_all(first, last) {
        return 1;
    }
    let mut start = first;
    let mut n: usize = 0;
    loop {
        let run = next_run(start, last);
        n += run_count(run.first, run.last);
        let reached = run.end;
        if is_last(reached, last) {
            return n;
        }
        start = reached.saturating_add(Wide { hi: 0, lo: 1 });
    }
}

// Puts their records, run after run.
fn put_runs(first: Wide, last: Wide, out: &mut [u8], at: usize) -> usize
    requires { (value first ≤ value last) × (at + length (records_of 128 (range_blocks 128 (value first) (value last))) ≤ length out.old) }
    ensures { Puts out.old out.new at result (records_of 128 (range_blocks 128 (value first) (value last))) }
{
    if is_all(first, last) {
        return put_one(64, 0, 0, 64, out, at);
    }
    let mut start = first;
    let mut next = at;
    loop {
        let run = next_run(start, last);
        next = put_run(run.longest, run.hi, run.first, run.last, out, next);
        let reached = run.end;
        if is_last(reached, last) {
            return next;
        }
        start = reached.saturating_add(Wide { hi: 0, lo: 1 });
    }
}

// How much room there is from an index on.
fn room_from(length: usize, at: usize) -> usize
    ensures { result ≡ length - at }
{
    if length < at { 0 } else { length - at }
}

// How many blocks a range of IPv4 addresses turns into; none where first is above last.
pub fn count_ipv4(first: u32, last: u32) -> usize
    ensures { result ≡ length (range_blocks 32 first last) }
{
    if last < first {
        return 0;
    }
    run_count(first as u64, last as u64)
}

// Whether their records fit into so many bytes. No range has more than 62 blocks, so that room for so many needs no count.
fn fits_ipv4(first: u32, last: u32, room: usize) -> bool
    ensures { result ≡ nat_le (length (records_of 32 (range_blocks 32 first last))) room }
{
    if 310 <= room {
        return true;
    }
    count_ipv4(first, last) * 5 <= room
}

// Puts the records of these blocks at an index of `out` where all of them have room, and else none. Answers the next index. It stands outside
// 01, which gives refusal 3 where the room is less.
pub fn put_ipv4(first: u32, last: u32, out: &mut [u8], at: usize) -> usize
    ensures { PutsAll out.old out.new at result (records_of 32 (range_blocks 32 first last)) }
{
    if last < first {
        return at;
    }
    if !fits_ipv4(first, last, room_from(out.len(), at)) {
        return at;
    }
    put_run(32, 0, first as u64, last as u64, out, at)
}

// The same for IPv6 addresses, whose ranges have 254 blocks at most.
pub fn count_ipv6(first: Wide, last: Wide) -> usize
    ensures { result ≡ length (range_blocks 128 (value first) (value last)) }
{
    if last < first {
        return 0;
    }
    count_runs(first, last)
}

fn fits_ipv6(first: Wide, last: Wide, room: usize) -> bool
    ensures { result ≡ nat_le (length (records_of 128 (range_blocks 128 (value first) (value last)))) room }
{
    if 4318 <= room {
        return true;
    }
    count_ipv6(first, last) * 17 <= room
}

// Puts their records, outside 01 as `put_ipv4` does.
pub fn put_ipv6(first: Wide, last: Wide, out: &mut [u8], at: usize) -> usize
    ensures { PutsAll out.old out.new at result (records_of 128 (range_blocks 128 (value first) (value last))) }
{
    if last < first {
        return at;
    }
    if !fits_ipv6(first, last, room_from(out.len(), at)) {
        return at;
    }
    put_runs(first, last, out, at)
}
