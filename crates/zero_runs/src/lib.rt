// The run of zero groups that normal text shortens.
#![tactic(auto)]

ghost use Rattle.zero_runs.specs.Runs.{LeftmostLongest};

// A run of groups.
#[derive(Clone, Copy)]
pub struct Run {
    pub start: usize,
    pub length: usize,
}

// The leftmost of the longest runs of zero groups; no group at 0 where no group is zero.
pub fn longest_run(groups: [u16; 8]) -> Run
    ensures { LeftmostLongest groups result.start result.length }
{
    let mut best: usize = 0;
    let mut length: usize = 0;
    let mut start: usize = 0;
    while start < 8 {
        let mut end = start;
        'run: while end < 8 {
            if groups[end] != 0 {
                break 'run;
            }
            end += 1;
        }
        if length < end - start {
            best = start;
            length = end - start;
        }
        start += 1;
    }
    Run {
        start: best,
        length,
    }
}
