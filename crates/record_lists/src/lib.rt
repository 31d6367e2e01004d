// A list of records of one family, read and judged: the one beginning of every call on such a list.
#![tactic(auto)]

ghost use Rattle.std.specs.Prelude.{◌≡◌, ◌&&◌, ◌*◌, ◌≤◌, leb, length};
ghost use Rattle.wide.specs.Value.{value};
ghost use Rattle.records.specs.Records.{record_size, read_record};
ghost use Rattle.record_lists.specs.RecordLists.{is_family, family_width, most_records, list_answer, list_reading_answer};
ghost use Rattle.record_lists.specs.Inner.{IsSize, size_width, JudgedAs, records_answer};

use address::Refusal;
use records::read_record;
use wide::Wide;

// The most records that a list may have.
const MOST: usize = 512;

// How many bytes a record of the family has: 5 of family 4, and 17 of any other number, of which `read_list` takes 6 alone.
pub fn family_size(family: u8) -> usize
    ensures { result ≡ record_size (family_width family) }
{
    if family == 4 { 5 } else { 17 }
}

fn is_family(family: u8) -> bool
    ensures { result ≡ is_family family }
{
    if family == 4 {
        return true;
    }
    family == 6
}

// One record: its address as a number, or why it is none.
fn judge_one(bytes: &[u8]) -> Result<Wide, Refusal>
    requires { IsSize (length bytes.now) }
    ensures { JudgedAs (size_width (length bytes.now)) (read_record (size_width (length bytes.now)) bytes.now) result }
{
    let block = read_record(bytes)?;
    let address = block.address;
    Ok(address.number())
}

// Whether a list that rose so far still rises.
fn still_rises(rises: bool, last: Wide, next: Wide) -> bool
    ensures { result ≡ (rises && leb (value last) (value next)) }
{
    rises && last <= next
}

// Judges n records, one after the other, up to the first bad one.
fn judge_all(size: usize, n: usize, records: &[u8]) -> Result<(usize, bool), Refusal>
    requires { IsSize size × (length records.now ≡ size * n) × (n ≤ most_records) }
    ensures { list_reading_answer result ≡ records_answer (size_width size) n records.now }
{
    let mut last = Wide::from(0);
    let mut rises = true;
    for i in 0..n {
        let at = i * size;
        let next = judge_one(&records[at..at + size])?;
        rises = still_rises(rises, last, next);
        last = next;
    }
    Ok((n, rises))
}

// Reads a list of records of one family.
pub fn read_list(family: u8, records: &[u8]) -> Result<(usize, bool), Refusal>
    ensures { list_reading_answer result ≡ list_answer family records.now }
{
    if !is_family(family) {
        return Err(Refusal::WrongFamily);
    }
    let size = family_size(family);
    if records.len() % size != 0 {
        return Err(Refusal::Malformed);
    }
    let n = records.len() / size;
    if MOST < n {
        return Err(Refusal::TooMany);
    }
    judge_all(size, n, records)
}
