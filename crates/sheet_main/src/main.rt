// The sheet program: respells the addresses of one acidity sheet, and sorts its lines by address where that is asked for.
//
// sheet_main [STATUS [OPTIONS [FILE]]]: the file, or standard input where there is none or it is `-`. OPTIONS is `-` and then any of the letters s,
// the lines are sorted, and e, a refused sheet is told with its line and the reason. Where STATUS is a digit the program ends by writing its status, a
// digit, to that descriptor: the language gives it no other way to tell it. A `p` behind the digit says that nobody reads what the program writes any
// more.
#![tactic(auto)]

ghost use Rattle.std.specs.Prelude.{◌≡◌, cond, ◌-◌, ◌≤◌, ltb, length};
ghost use Rattle.notation.specs.Pieces.{contains};
ghost use Rattle.program_io.specs.Calls.{Filled};
ghost use Rattle.sheet_main.specs.Runs.{reached, after_read, Turns, is_more, is_whole, Reads, Replies, Answers, AnswersRun, status_of, AnswersInput};

use digits::read::find;
use program_io::{Got, Input, Streams, brought, no_error};
use sheet::respell;
use sheet_notes::put_refused;
use std::env::Env;
use std::fs::Files;
use std::io::Read;

// How far an input is: there may be more, or it has ended, or it is longer than a sheet may be, or it could not be read.
#[derive(Clone, Copy)]
pub enum End {
    More,
    Ended,
    Full,
    Unread,
}

impl End {
    // Whether there may be more.
    fn goes_on(self) -> bool
        ensures { result ≡ is_more self }
    {
        matches!(self, End::More)
    }

    // Whether what is read tells the answer.
    fn is_whole(self) -> bool
        ensures { result ≡ is_whole self }
    {
        matches!(self, End::Ended | End::Full)
    }
}

// An input that is being read: how many bytes are read, and how far it is.
#[derive(Clone, Copy)]
pub struct Run {
    pub len: usize,
    pub end: End,
}

// An input that is done with, and after how many turns.
#[derive(Clone, Copy)]
pub struct Outcome {
    pub run: Run,
    pub turns: u64,
}

// What is to be written for a sheet: so many bytes of the buffers for standard output and for standard error, and whether the sheet is refused.
#[derive(Clone, Copy)]
pub struct Reply {
    pub written: usize,
    pub noted: usize,
    pub refused: bool,
}

// A sheet that is answered: whether it is refused, how many bytes of the answer and the note were taken, and how many are left.
#[derive(Clone, Copy)]
pub struct Answered {
    pub refused: bool,
    pub moved: usize,
    pub left: usize,
}

// An input that is answered: how it was read, after how many turns, what was answered, and the status.
#[derive(Clone, Copy)]
pub struct InputAnswer {
    pub run: Run,
    pub turns: u64,
    pub answered: Answered,
    pub status: u8,
}

// What is asked for.
#[derive(Clone, Copy)]
struct Options {
    sorted: bool,
    explain: bool,
}

// What answers an input: the program's streams, and what is asked for.
#[derive(Clone, Copy)]
struct Answerer {
    streams: Streams,
    options: Options,
}

// ---- read

// So many bytes are read: more than 65,536 are no sheet, whatever follows.
fn reach(len: usize) -> Run
    ensures { result ≡ reached len }
{
    let end = if len < 65537 { End::More } else { End::Full };
    Run { len, end }
}

// What a read has brought stands behind what was read before. A read that failed is told, and is not the end.
fn after_read(streams: &mut Streams, run: Run, got: Got, name: &[u8]) -> Run
    requires { (run.len ≤ 65537) × Filled (65537 - run.len) got }
    ensures { result ≡ after_read run got }
{
    match got {
        Got::Again => run,
        Got::Failed(why) => {
            streams.tell(name, why);
            Run {
                end: End::Unread,
                ..run
            }
        }
        Got::Bytes(0) => Run {
            end: End::Ended,
            ..run
        },
        Got::Bytes(n) => reach(run.len + n),
    }
}

// One turn: reads behind the bytes that are there.
fn turn<R: Read>(
    from: &mut R,
    streams: &mut Streams,
    run: Run,
    input: &mut [u8],
    name: &[u8],
) -> Run
    requires { (run.len ≤ 65537) × (length input.old ≡ 65537) }
    ensures { Turns run input.old input.new result }
{
    let got = brought(from.read(&mut input[run.len..]));
    after_read(streams, run, got, name)
}

// Reads, turn after turn, until there is no more. Nothing says that an input ends, so the turns are counted, up to a number that no run reaches.
fn read_all<R: Read>(from: &mut R, streams: &mut Streams, input: &mut [u8], name: &[u8]) -> Outcome
    requires { length input.old ≡ 65537 }
    ensures { Reads result.turns result.run input.new }
{
    let mut run = Run {
        len: 0,
        end: End::More,
    };
    for turns in 0..u64::MAX {
        run = turn(from, streams, run, input, name);
        if !run.end.goes_on() {
            return Outcome {
                run,
                turns: turns + 1,
            };
        }
    }
    Outcome {
        run,
        turns: u64::MAX,
    }
}

// ---- the status

// The status of a sheet that was read to its end, of which so many bytes are left to be written.
fn answered_status(refused: bool, left: usize) -> u8
    ensures { result ≡ cond (ltb 0 left) 2 (cond refused 1 0) }
{
    if 0 < left {
        return 2;
    }
    if refused { 1 } else { 0 }
}

// The status of an input, however it was read.
fn judge(streams: &mut Streams, end: End, answered: Answered, name: &[u8]) -> u8
    ensures { result ≡ status_of end answered.refused answered.left }
{
    match end {
        End::Ended | End::Full => answered_status(answered.refused, answered.left),
        End::Unread => 2,
        End::More => {
            streams.tell(name, no_error());
            2
        }
    }
}

// ---- answer

impl Answerer {
    // Puts what is to be written: the sheet respelled, or the note on why it is refused. 1,024 lines of at most 52 bytes have room, so that none is
    // refused for want of it.
    fn put_reply(&self, sheet: &[u8], name: &[u8], out: &mut [u8], note: &mut [u8]) -> Reply
        requires { (length name.now ≤ 4096) × (length out.old ≡ 53248) × (length note.old ≡ 4187) }
        ensures { Replies self.now.options.sorted self.now.options.explain name.now sheet.now out.new note.new result }
    {
        let options = self.options;
        match respell(sheet, options.sorted, out) {
            Ok(written) => Reply {
                written,
                noted: 0,
                refused: false,
            },
            Err(refusal) => {
                let number = u8::from(refusal);
                let noted = put_refused(note, 0, name, options.explain, number, sheet);
                Reply {
                    written: 0,
                    noted,
                    refused: true,
                }
            }
        }
    }

    // Answers a sheet. Each byte of the answer and the note was taken by a call, or is left.
    fn answer_sheet(&mut self, sheet: &[u8], name: &[u8]) -> Answered
        requires { length name.now ≤ 4096 }
        ensures { Answers self.old.options.sorted self.old.options.explain name.now sheet.now result }
    {
        let mut out = [0u8; 53248];
        let mut note = [0u8; 4187];
        let reply = self.put_reply(sheet, name, &mut out, &mut note);
        let sent = self
            .streams
            .write_answers(&out[..reply.written], &note[..reply.noted]);
        Answered {
            refused: reply.refused,
            moved: sent.moved,
            left: sent.left,
        }
    }

    // Answers what was read, if that tells the answer: a part of a sheet is not answered.
    fn answer_run(&mut self, run: Run, input: &[u8], name: &[u8]) -> Answered
        requires { (run.len ≤ length input.now) × (length name.now ≤ 4096) }
        ensures { AnswersRun self.old.options.sorted self.old.options.explain name.now run input.now result }
    {
        if run.end.is_whole() {
            return self.answer_sheet(&input[..run.len], name);
        }
        Answered {
            refused: false,
            moved: 0,
            left: 0,
        }
    }

    // Reads an input and answers it.
    fn answer_read<R: Read>(&mut self, from: &mut R, name: &[u8], input: &mut [u8]) -> InputAnswer
        requires { (length name.now ≤ 4096) × (length input.old ≡ 65537) }
        ensures { AnswersInput self.old.options.sorted self.old.options.explain name.now input.new result }
    {
        let Outcome { run, turns } = read_all(from, &mut self.streams, input, name);
        let answered = self.answer_run(run, input, name);
        let status = judge(&mut self.streams, run.end, answered, name);
        InputAnswer {
            run,
            turns,
            answered,
            status,
        }
    }

    // The status of an input.
    fn answer_input<R: Read>(&mut self, from: &mut R, name: &[u8]) -> u8
        requires { length name.now ≤ 4096 }
    {
        let mut input = [0u8; 65537];
        self.answer_read(from, name, &mut input).status
    }

    // The status of the input that an argument names.
    fn answer_argument<R: Env + Files>(&mut self, rt: &R, i: usize) -> u8 {
        let mut name = [0u8; 4096];
        let (n, input) = self.streams.open(rt, i, &mut name);
        match input {
            Some(Input::Standard(mut input)) => self.answer_input(&mut input, &name[..n]),
            Some(Input::File(mut file)) => self.answer_input(&mut file, &name[..n]),
            None => 2,
        }
    }
}

// ---- the arguments

// Whether a letter stands among the options.
fn asks(options: &[u8], letter: u8) -> bool
    ensures { result ≡ contains letter options.now }
{
    find(options, letter) < options.len()
}

// What the second argument asks for.
fn read_options(env: &impl Env) -> Options {
    let mut text = [0u8; 4096];
    let n = env.arg(2, &mut text).unwrap_or(0);
    Options {
        sorted: asks(&text[..n], b's'),
        explain: asks(&text[..n], b'e'),
    }
}

fn main(rt: HostRuntime) {
    let mut answerer = Answerer {
        streams: Streams {
            input: rt.stdin(),
            output: rt.stdout(),
            error: rt.stderr(),
            broken: false,
        },
        options: read_options(&rt),
    };
    let status = answerer.answer_argument(&rt, 3);
    answerer.streams.write_status(&rt, status);
}
