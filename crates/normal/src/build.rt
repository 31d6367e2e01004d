// Normal text of eight groups, put together in a lent array.
ghost use Rattle.output.specs.Placing.{Puts};
ghost use Rattle.normal.specs.Normal.{groups_text, normal_groups};

use output::{put, put_hex};
use zero_runs::longest_run;

// Puts groups in hexadecimal, with colons between them.
fn put_groups(text: &mut [u8], at: usize, groups: &[u16]) -> usize
    ensures { Puts text.old text.new at result (groups_text groups.now) }
{
    let [first, rest @ ..] = groups else {
        return at;
    };
    let mut next = put_hex(text, at, *first);
    for &group in rest {
        next = put(text, next, b':');
        next = put_hex(text, next, group);
    }
    next
}

// Puts eight groups, the run that normal text shortens as `::`. As `put`, it stands outside 01: a text without room is cut.
pub fn put_eight(text: &mut [u8], at: usize, groups: [u16; 8]) -> usize
    ensures { Puts text.old text.new at result (normal_groups groups) }
{
    let run = longest_run(groups);
    let start = run.start;
    let length = run.length;
    if length < 2 {
        return put_groups(text, at, &groups);
    }
    let a = put_groups(text, at, &groups[..start]);
    let b = put(text, a, b':');
    let c = put(text, b, b':');
    put_groups(text, c, &groups[start + length..])
}
