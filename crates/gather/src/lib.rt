// A list of blocks gathered into the fewest, and what it does not cover, as records in a second lent buffer. One pass over the blocks in rising
// order builds the runs of addresses, and each run, or each gap between two, goes through the walk of `runs`.
#![tactic(auto)]

ghost use Rattle.std.specs.Prelude.{◌≡◌, true, suc, ◌-◌, ◌^◌, ◌≤◌, ◌<◌, max, leb, length};
ghost use Rattle.wide.specs.Value.{value};
ghost use Rattle.cover.specs.Blocks.{IsBlock, after, range_blocks};
ghost use Rattle.lists.specs.Lists.{gathered_blocks, uncovered_blocks};
ghost use Rattle.address.specs.Addresses.{width};
ghost use Rattle.output.specs.Placing.{Puts, PutsAll};
ghost use Rattle.records.specs.Records.{record_size, record_of, block_record, records_of, read_records, blocks_writing_answer};
ghost use Rattle.record_lists.specs.RecordLists.{is_rising, family_width, most_records};
ghost use Rattle.list_answers.specs.ListAnswers.{gather_answer, gather_leaves, uncovered_answer, uncovered_leaves};
ghost use Rattle.gather.specs.Inner.{size_of, width_of, IsList, blocks_of, block_at, HasOrder, numbers, record_at, InList, Spans, HasPlace, place_of, Bounds, Built, RunFits, Turned, Listed, InOrder, Loaded, OrderedBy, WritesBlocks, GapFits, PutsIf, PutsBefore, most_uncovered};

use address::{Address, Block, Refusal};
use octets::read_octets;
use record_lists::read_list;
use records::fill_record;
use runs::{count_ipv4, count_ipv6, put_ipv4, put_ipv6};
use sort::sort_keys;
use store::store;
use wide::Wide;

// ---- the family of a list

// It says how long the records and the addresses are.
#[derive(Clone, Copy)]
enum Family {
    V4,
    V6,
}

impl Family {
    // How many bytes a record has.
    fn size(self) -> usize
        ensures { result ≡ size_of self }
    {
        match self {
            Family::V4 => 5,
            Family::V6 => 17,
        }
    }

    // The last address of all.
    fn top(self) -> Wide
        ensures { value result ≡ 2 ^ width_of self - 1 }
    {
        match self {
            Family::V4 => Wide::ones(32),
            Family::V6 => Wide::ones(128),
        }
    }
}

// The family of a number: `read_list` takes 4 and 6 alone.
fn family_of(number: u8) -> Family
    ensures { size_of result ≡ record_size (family_width number) }
{
    if number == 4 { Family::V4 } else { Family::V6 }
}

// ---- the blocks of a list, in order

// The addresses of a block, and its length.
#[derive(Clone, Copy)]
struct Span {
    first: Wide,
    last: Wide,
    length: u8,
}

// A list of blocks of one family, as records.
#[derive(Clone, Copy)]
struct Records<'a> {
    family: Family,
    bytes: &'a [u8],
    count: usize,
}

// The last address of a block.
fn last_of(family: Family, first: Wide, length: u8) -> Wide
    requires { IsBlock (width_of family) (numbers first length) }
    ensures { value result ≡ after (width_of family) (numbers first length) - 1 }
{
    match family {
        Family::V4 => Wide {
            hi: 0,
            lo: first.lo + ((1u64 << (32 - (length as u32))) - 1),
        },
        Family::V6 => first.saturating_add(Wide::ones(128 - (length as u32))),
    }
}

// The index of the j-th record in the order; no order stands for the records as they are.
fn place(order: &[u16], j: usize) -> usize
    requires { HasPlace order.now j }
    ensures { result ≡ place_of order.now j }
{
    if order.len() == 0 {
        return j;
    }
    order[j] as usize
}

impl Records<'_> {
    // The address of the record at an index.
    fn address(self, i: usize) -> Wide
        requires { InList (size_of self.family) i self.bytes.now }
        ensures { value result ≡ (block_at self.entry i).address }
    {
        let size = self.family.size();
        let at = i * size;
        match read_octets(&self.bytes[at..at + size - 1]) {
            Ok(address) => address.number(),
            Err(_) => Wide::from(0),
        }
    }

    // The block of the record at an index.
    fn span(self, i: usize) -> Span
        requires { InList (size_of self.family) i self.bytes.now × IsBlock (width_of self.family) (block_at self i) }
        ensures { Spans (width_of self.entry.family) (block_at self.entry i) result }
    {
        let size = self.family.size();
        let first = self.address(i);
        let length = self.bytes[i * size + (size - 1)];
        let last = last_of(self.family, first, length);
        Span {
            first,
            last,
            length,
        }
    }

    // Loads the halves of the addresses.
    fn load_keys(self, hi: &mut [u64], lo: &mut [u64])
        requires { IsList self × (self.count ≤ length hi.old) × (self.count ≤ length lo.old) }
        ensures { Loaded (width_of self.entry.family) self.entry.count self.entry.bytes.now hi.new lo.new × (length hi.new ≡ length hi.old) × (length lo.new ≡ length lo.old) }
    {
        for i in 0..self.count {
            let key = self.address(i);
            hi[i] = key.hi;
            lo[i] = key.lo;
        }
    }

    // Puts the indices of the records into the order of their addresses.
    fn sort_indices(self, order: &mut [u16])
        requires { IsList self × (self.count ≤ length order.old) }
        ensures { OrderedBy (width_of self.entry.family) self.entry.count self.entry.bytes.now order.new × (length order.new ≡ length order.old) }
    {
        let mut hi = [0u64; 512];
        let mut lo = [0u64; 512];
        self.load_keys(&mut hi, &mut lo);
        sort_keys(&hi[..self.count], &lo[..self.count], order);
    }
}

// ---- gathered

// The run of addresses that is being built, and the index behind the records of the runs before it. A run that is one block so far has that
// block's length: where another run follows, it is put without a walk.
#[derive(Clone, Copy)]
struct Run {
    first: Wide,
    last: Wide,
    alone: bool,
    length: u8,
    at: usize,
}

// Puts the records of a range at an index.
fn put_range(family: Family, first: Wide, last: Wide, out: &mut [u8], at: usize) -> usize
    requires { Bounds (size_of family) first last }
    ensures { PutsAll out.old out.new at result (records_of (width_of family) (range_blocks (width_of family) (value first) (value last))) }
{
    match family {
        Family::V4 => put_ipv4(first.lo as u32, last.lo as u32, out, at),
        Family::V6 => put_ipv6(first, last, out, at),
    }
}

// The block value of an address and a length.
fn block_of(family: Family, first: Wide, length: u8) -> Block
    requires { value first < 2 ^ width_of family }
    ensures { (block_record result ≡ record_of (width_of family) (numbers first length)) × (width result.address ≡ width_of family) }
{
    let address = match family {
        Family::V4 => Address::V4(first.lo as u32),
        Family::V6 => Address::V6(first.hi, first.lo),
    };
    Block { address, length }
}

// Puts the records of a run at its index, and answers the next.
fn put_run(family: Family, run: Run, out: &mut [u8]) -> usize
    requires { Built (size_of family) run × RunFits (size_of family) run out.old }
    ensures { Puts out.old out.new run.at result (records_of (width_of family) (range_blocks (width_of family) (value run.first) (value run.last))) }
{
    let first = run.first;
    let last = run.last;
    let length = run.length;
    let at = run.at;
    if run.alone {
        fill_record(block_of(family, first, length), &mut out[at..]);
        return at + family.size();
    }
    put_range(family, first, last, out, at)
}

// The next block in the order: it lies in the run, goes on with it, or ends it and starts another.
fn turn(family: Family, run: Run, block: Span, out: &mut [u8]) -> Run
    requires { Built (size_of family) run × (value block.last < 2 ^ width_of family) × (suc (value run.last) < value block.first → RunFits (size_of family) run out.old) }
    ensures { Turned (size_of family) run block out.old result out.new }
{
    let first = run.first;
    let last = run.last;
    let length = run.length;
    let at = run.at;
    let start = block.first;
    let end = block.last;
    if end <= last {
        return run;
    }
    if start <= last.saturating_add(Wide::from(1)) {
        return Run {
            first,
            last: end,
            alone: false,
            length,
            at,
        };
    }
    let next = put_run(family, run, out);
    let length = block.length;
    Run {
        first: start,
        last: end,
        alone: true,
        length,
        at: next,
    }
}

impl Records<'_> {
    // One pass over the blocks in order: puts the records of their runs at the start of `out`, and answers how many bytes they are.
    fn pass(self, order: &[u16], out: &mut [u8]) -> usize
        requires { IsList self × HasOrder self order.now × (length self.bytes.now ≤ length out.old) }
        ensures { Puts out.old out.new 0 result (records_of (width_of self.entry.family) (gathered_blocks (width_of self.entry.family) (blocks_of self.entry))) }
    {
        if self.count == 0 {
            return 0;
        }
        let b = self.span(place(order, 0));
        let first = b.first;
        let last = b.last;
        let length = b.length;
        let mut run = Run {
            first,
            last,
            alone: true,
            length,
            at: 0,
        };
        for j in 1..self.count {
            run = turn(self.family, run, self.span(place(order, j)), out);
        }
        put_range(self.family, run.first, run.last, out, run.at)
    }

    // Gathers records in any order.
    fn gather_sorted(self, out: &mut [u8]) -> usize
        requires { IsList self × (length self.bytes.now ≤ length out.old) }
        ensures { Puts out.old out.new 0 result (records_of (width_of self.entry.family) (gathered_blocks (width_of self.entry.family) (blocks_of self.entry))) }
    {
        let mut order = [0u16; 512];
        self.sort_indices(&mut order);
        self.pass(&order[..self.count], out)
    }

    // Gathers records, which are sorted only where they do not rise already.
    fn gather_into(self, rises: bool, out: &mut [u8]) -> usize
        requires { IsList self × (rises ≡ is_rising (blocks_of self)) × (length self.bytes.now ≤ length out.old) }
        ensures { Puts out.old out.new 0 result (records_of (width_of self.entry.family) (gathered_blocks (width_of self.entry.family) (blocks_of self.entry))) }
    {
        if rises {
            let none = [0u16; 1];
            return self.pass(&none[..0], out);
        }
        self.gather_sorted(out)
    }

    // Writes the gathered list of the records to the start of `out`. It is never longer than the list, so that it is put there at once where `out`
    // is as long; a shorter one may yet have room.
    fn write_gathered(self, rises: bool, out: &mut [u8]) -> Result<(usize, usize), Refusal>
        requires { IsList self × (rises ≡ is_rising (blocks_of self)) }
        ensures { WritesBlocks (width_of self.entry.family) (gathered_blocks (width_of self.entry.family) (blocks_of self.entry)) out.old result out.new }
    {
        if self.bytes.len() <= out.len() {
            let bytes = self.gather_into(rises, out);
            return Ok((bytes / self.family.size(), bytes));
        }
        let mut buffer = [0u8; 8704];
        let bytes = self.gather_into(rises, &mut buffer);
        store(&buffer[..bytes], out)?;
        Ok((bytes / self.family.size(), bytes))
    }
}

// Gathers a list of records of one family: writes the fewest blocks that cover what it covers, and nothing else, to the start of `out`.
pub fn gather(family: u8, records: &[u8], out: &mut [u8]) -> Result<(usize, usize), Refusal>
    ensures { (blocks_writing_answer result ≡ gather_answer family records.now out.old) × (out.new ≡ gather_leaves family records.now out.old) }
{
    let (count, rises) = read_list(family, records)?;
    let list = Records {
        family: family_of(family),
        bytes: records,
        count,
    };
    list.write_gathered(rises, out)
}

// ---- what is not covered

// How many blocks a range turns into.
fn count_range(family: Family, first: Wide, last: Wide) -> usize
    requires { Bounds (size_of family) first last }
    ensures { result ≡ length (range_blocks (width_of family) (value first) (value last)) }
{
    match family {
        Family::V4 => count_ipv4(first.lo as u32, last.lo as u32),
        Family::V6 => count_ipv6(first, last),
    }
}

// Puts the records of a gap at an index where `write` says so, and else counts their bytes only. Answers the next index.
fn put_gap(family: Family, write: bool, first: Wide, last: Wide, out: &mut [u8], at: usize) -> usize
    requires { Bounds (size_of family) first last × GapFits (size_of family) write (value first) (value last) at out.old }
    ensures { PutsIf write out.old out.new at result (records_of (width_of family) (range_blocks (width_of family) (value first) (value last))) }
{
    if write {
        return put_range(family, first, last, out, at);
    }
    at + count_range(family, first, last) * family.size()
}

// The gap from an address to a block, if there is one.
fn put_before(
    family: Family,
    write: bool,
    from: Wide,
    block: Span,
    out: &mut [u8],
    at: usize,
) -> usize
    requires { (value block.first < 2 ^ width_of family) × (value from < value block.first → GapFits (size_of family) write (value from) (value block.first - 1) at out.old) }
    ensures { PutsBefore (size_of family) write (value from) (value block.first) out.old at out.new result }
{
    let first = block.first;
    if first <= from {
        return at;
    }
    let last = first.saturating_sub(Wide::from(1));
    put_gap(family, write, from, last, out, at)
}

// The address to go on from behind a block, which does not reach the last address of all.
fn behind(from: Wide, last: Wide) -> Wide
    requires { value last < 2 ^ 128 - 1 }
    ensures { value result ≡ max (value from) (suc (value last)) }
{
    if last < from {
        return from;
    }
    last.saturating_add(Wide::from(1))
}

// Whether there is room for the most blocks that n records can leave uncovered.
fn is_ample(family: Family, n: usize, room: usize) -> bool
    requires { n ≤ most_records }
    ensures { result ≡ leb (most_uncovered (size_of family) n) room }
{
    match family {
        Family::V4 => (1 + n * 31) * 5 <= room,
        Family::V6 => (1 + n * 127) * 17 <= room,
    }
}

impl Records<'_> {
    // One pass over the blocks in order: the gaps before each, and the one behind the last. Their records are put at the start of `out` where
    // `write` says so. Answers how many bytes they are. The address that it has come to is kept in two halves: in one value the compiler would
    // store it and load it again for each block.
    fn sweep(self, write: bool, order: &[u16], out: &mut [u8]) -> usize
        requires { IsList self × HasOrder self order.now × (write ≡ true → length (records_of (width_of self.family) (uncovered_blocks (width_of self.family) (blocks_of self))) ≤ length out.old) }
        ensures { PutsIf write out.old out.new 0 result (records_of (width_of self.entry.family) (uncovered_blocks (width_of self.entry.family) (blocks_of self.entry))) }
    {
        let top = self.family.top();
        let mut hi: u64 = 0;
        let mut lo: u64 = 0;
        let mut at: usize = 0;
        for j in 0..self.count {
            let from = Wide { hi, lo };
            let block = self.span(place(order, j));
            at = put_before(self.family, write, from, block, out, at);
            let last = block.last;
            if top <= last {
                return at;
            }
            let next = behind(from, last);
            hi = next.hi;
            lo = next.lo;
        }
        put_gap(self.family, write, Wide { hi, lo }, top, out, at)
    }

    // Counts the bytes of the gaps first where they might have no room, so that a buffer without room for all of them is left as it is.
    fn write_gaps(self, order: &[u16], out: &mut [u8]) -> Result<(usize, usize), Refusal>
        requires { IsList self × HasOrder self order.now }
        ensures { WritesBlocks (width_of self.entry.family) (uncovered_blocks (width_of self.entry.family) (blocks_of self.entry)) out.old result out.new }
    {
        if is_ample(self.family, self.count, out.len()) {
            let bytes = self.sweep(true, order, out);
            return Ok((bytes / self.family.size(), bytes));
        }
        let bytes = self.sweep(false, order, out);
        if out.len() < bytes {
            return Err(Refusal::NoRoom);
        }
        self.sweep(true, order, out);
        Ok((bytes / self.family.size(), bytes))
    }

    // The gaps of records in any order.
    fn write_sorted_gaps(self, out: &mut [u8]) -> Result<(usize, usize), Refusal>
        requires { IsList self }
        ensures { WritesBlocks (width_of self.entry.family) (uncovered_blocks (width_of self.entry.family) (blocks_of self.entry)) out.old result out.new }
    {
        let mut order = [0u16; 512];
        self.sort_indices(&mut order);
        self.write_gaps(&order[..self.count], out)
    }

    // The gaps of records, which are sorted only where they do not rise already.
    fn write_uncovered(self, rises: bool, out: &mut [u8]) -> Result<(usize, usize), Refusal>
        requires { IsList self × (rises ≡ is_rising (blocks_of self)) }
        ensures { WritesBlocks (width_of self.entry.family) (uncovered_blocks (width_of self.entry.family) (blocks_of self.entry)) out.old result out.new }
    {
        if rises {
            let none = [0u16; 1];
            return self.write_gaps(&none[..0], out);
        }
        self.write_sorted_gaps(out)
    }
}

// Writes the fewest blocks of what a list of records of one family does not cover to the start of `out`.
pub fn uncovered(family: u8, records: &[u8], out: &mut [u8]) -> Result<(usize, usize), Refusal>
    ensures { (blocks_writing_answer result ≡ uncovered_answer family records.now out.old) × (out.new ≡ uncovered_leaves family records.now out.old) }
{
    let (count, rises) = read_list(family, records)?;
    let list = Records {
        family: family_of(family),
        bytes: records,
        count,
    };
    list.write_uncovered(rises, out)
}
