// The eight groups of IPv6 text, read.
#![tactic(auto)]

ghost use Rattle.std.specs.Prelude.{◌≡◌, true, List, ℕ, ◌≤◌, ◌<◌, length, take, get_or, Option, Some};
ghost use Rattle.notation.specs.Options.{joined};
ghost use Rattle.ipv6_text.specs.Inner.{HoldsGroups, count_of, sided, ReadsSide, LaidOut, colon_first, gap_first, expanded};
ghost use Rattle.ipv6_text.specs.EightGroups.{tail_of, side_of, filled, eight, eight_of};

use digits::groups::leading_group;
use ipv4_text::read_dotted;

// Where the groups that were read belong: the first `gap` of `count` at the front, the others at the end.
#[derive(Clone, Copy)]
struct Layout {
    count: usize,
    gap: usize,
}

// What was read on one side of `::`: how many groups there are then, and the index behind `::`, where one was reached.
#[derive(Clone, Copy)]
struct Side {
    count: usize,
    next: Option<usize>,
}

// The layout of groups with no `::` among them.
fn without_gap(count: usize) -> Option<Layout>
    ensures { (gs : List ℕ) (o : Option (List ℕ)) → HoldsGroups gs count o → LaidOut gs result (eight o) }
{
    if count == 8 {
        return Some(Layout { count: 8, gap: 8 });
    }
    None
}

// The layout of groups with `::` behind the first `gap` of them.
fn with_gap(count: usize, gap: usize) -> Option<Layout>
    ensures { (gs xs : List ℕ) (o : Option (List ℕ)) → length xs ≡ gap → HoldsGroups gs count (joined (Some xs) o) → LaidOut gs result (filled (Some xs) o) }
{
    if 7 < count {
        return None;
    }
    Some(Layout { count, gap })
}

// Puts the two groups of a strict IPv4 text behind the first `n`. Answers how many groups there are then.
fn put_tail(text: &[u8], groups: &mut [u16; 8], n: usize) -> Option<usize>
    requires { (length groups.old ≡ 8) × (n ≤ 8) }
    ensures { HoldsGroups groups.new (count_of result) (joined (Some (take n groups.old)) (tail_of text.now)) }
{
    if 6 < n {
        return None;
    }
    let v = read_dotted(text)?;
    groups[n] = (v / 65536) as u16;
    groups[n + 1] = (v % 65536) as u16;
    Some(n + 2)
}

// Whether a text begins with a colon.
fn starts_with_colon(text: &[u8]) -> bool
    ensures { result ≡ colon_first text.now }
{
    matches!(text, [b':', ..])
}

// Whether a text begins with `::`.
fn starts_with_gap(text: &[u8]) -> bool
    ensures { result ≡ gap_first text.now }
{
    matches!(text, [b':', b':', ..])
}

// Puts the groups up to `::` or the end of the text behind the first `from`. One loop for both sides of `::`, so that the compiler
// puts the reading of a group into it.
fn read_side(text: &[u8], groups: &mut [u16; 8], from: usize) -> Option<Side>
    requires { (length groups.old ≡ 8) × (from ≤ 8) }
    ensures { ReadsSide (take from groups.old) groups.new text.now (sided result) }
{
    let mut rest = text;
    for n in from..8 {
        let Some((x, end)) = leading_group(rest) else {
            let count = put_tail(rest, groups, n)?;
            return Some(Side { count, next: None });
        };
        if rest.len() <= end {
            groups[n] = x as u16;
            return Some(Side {
                count: n + 1,
                next: None,
            });
        }
        if rest[end] != b':' {
            let count = put_tail(rest, groups, n)?;
            return Some(Side { count, next: None });
        }
        groups[n] = x as u16;
        rest = &rest[end + 1..];
        if starts_with_colon(rest) {
            let next = Some(text.len() - rest.len() + 1);
            return Some(Side { count: n + 1, next });
        }
    }
    None
}

// Puts the groups to the right of `::` behind the first `from`. Answers how many groups there are then.
fn read_right(text: &[u8], groups: &mut [u16; 8], from: usize) -> Option<usize>
    requires { (length groups.old ≡ 8) × (from ≤ 8) }
    ensures { HoldsGroups groups.new (count_of result) (joined (Some (take from groups.old)) (side_of true text.now)) }
{
    if text.len() == 0 {
        return Some(from);
    }
    let side = read_side(text, groups, from)?;
    match side.next {
        Some(_) => None,
        None => Some(side.count),
    }
}

// The groups of a strict IPv6 text, one after the other, and where they belong.
fn read_groups(text: &[u8], groups: &mut [u16; 8]) -> Option<Layout>
    requires { length groups.old ≡ 8 }
    ensures { LaidOut groups.new result (eight_of text.now) }
{
    if starts_with_gap(text) {
        let count = read_right(&text[2..], groups, 0)?;
        return with_gap(count, 0);
    }
    let left = read_side(text, groups, 0)?;
    let gap = left.count;
    let Some(next) = left.next else {
        return without_gap(gap);
    };
    let count = read_right(&text[next..], groups, gap)?;
    with_gap(count, gap)
}

// The group at one of the eight places. Both groups are looked up before the choice, so that the compiler makes it without a branch.
fn expanded_group(groups: &[u16; 8], count: usize, gap: usize, place: usize) -> u16
    requires { (length groups.now ≡ 8) × (gap ≤ count) × (count ≤ 8) × (place < 8) }
    ensures { result ≡ get_or (expanded count gap groups.now) place 0 }
{
    let front = groups[place];
    let back = groups[(place + count) % 8];
    if place < gap {
        return front;
    }
    if place < gap + (8 - count) {
        return 0;
    }
    back
}

// The groups in all eight places, with a zero group for each that `::` stands for.
fn expand(groups: &[u16; 8], count: usize, gap: usize) -> [u16; 8]
    requires { (length groups.now ≡ 8) × (gap ≤ count) × (count ≤ 8) }
    ensures { result ≡ expanded count gap groups.now }
{
    [
        expanded_group(groups, count, gap, 0),
        expanded_group(groups, count, gap, 1),
        expanded_group(groups, count, gap, 2),
        expanded_group(groups, count, gap, 3),
        expanded_group(groups, count, gap, 4),
        expanded_group(groups, count, gap, 5),
        expanded_group(groups, count, gap, 6),
        expanded_group(groups, count, gap, 7),
    ]
}

// The eight groups of a strict IPv6 text.
pub fn read_eight(text: &[u8]) -> Option<[u16; 8]>
    ensures { result ≡ (eight_of text.now) }
{
    let mut groups = [0u16; 8];
    let layout = read_groups(text, &mut groups)?;
    let count = layout.count;
    if count == 8 {
        return Some(groups);
    }
    Some(expand(&groups, count, layout.gap))
}
