// The range program: answers each line of its input, two addresses, with the blocks from the first to the second.
//
// range_main [STATUS [EXPLAIN [FILE ..]]]: the files in turn, or standard input; a FILE that is `-` is standard input. Where EXPLAIN is `-e` each
// refused line is told on standard error. Where STATUS is a digit the program ends by writing its status, a digit, to that descriptor: the
// language gives it no other way to tell it. A `p` behind the digit says that nobody reads what the program writes any more.
#![tactic(auto)]

ghost use Rattle.std.specs.Prelude.{◌≡◌, false, cond, ◌||◌, ◌+◌, ◌≤◌, ◌<◌, max, length};
ghost use Rattle.program_io.specs.Calls.{Filled};
ghost use Rattle.range_main.specs.Runs.{Within, OrUnwritten, AnswersPiece, AnswersEnd, AfterRead, Turns, end_of, is_more, Finished, status_of, stops_at};

use program_io::{Got, Input, Streams, brought, no_error};
use range_lines::{Fed, Reader, feed, finish, is_begun, start};
use std::env::{Env, FillError};
use std::fs::Files;
use std::io::Read;

// How far an input is: there is more, or it has ended, or it could not be read, or the answers could not be written.
#[derive(Clone, Copy)]
pub enum End {
    More,
    Ended,
    Unread,
    Unwritten,
}

impl End {
    fn goes_on(self) -> bool
        ensures { result ≡ is_more self }
    {
        matches!(self, End::More)
    }
}

// An input that is being read: where the reading stands, the bytes of the last piece that are not taken yet, whether a line was refused, and
// how far it is.
#[derive(Clone, Copy)]
pub struct Run {
    pub reader: Reader,
    pub from: usize,
    pub to: usize,
    pub refused: bool,
    pub end: End,
}

impl Run {
    // The input could not be read, or the answers could not be written.
    fn stopped(self, end: End) -> Run
        ensures { Within result × (result.end ≡ end) }
    {
        Run {
            from: 0,
            to: 0,
            end,
            ..self
        }
    }

    // The reading stands behind what a call has taken, and a refusal is kept in mind.
    fn after(self, fed: Fed) -> Run
        ensures { result ≡ record self { reader = fed.reader; refused = self.refused || fed.refused } }
    {
        Run {
            reader: fed.reader,
            refused: self.refused || fed.refused,
            ..self
        }
    }
}

// An input that is done with, and after how many turns.
#[derive(Clone, Copy)]
pub struct Outcome {
    pub end: End,
    pub refused: bool,
    pub turns: u64,
}

// The status of an input, or the worst of several, and whether the program is to stop.
#[derive(Clone, Copy)]
struct Verdict {
    status: u8,
    stop: bool,
}

impl Verdict {
    // One input more: the worst status counts.
    fn and(self, next: Verdict) -> Verdict
        ensures { (result.status ≡ max self.status next.status) × (result.stop ≡ next.stop) }
    {
        Verdict {
            status: self.status.max(next.status),
            stop: next.stop,
        }
    }
}

// What has come of the inputs, and how many of them there were.
#[derive(Clone, Copy)]
struct Answered {
    verdict: Verdict,
    inputs: usize,
}

// What answers inputs: the program's streams, whether refused lines are told, and the room for what a call puts, the answers and the notes.
#[derive(Drop)]
struct Answerer {
    streams: Streams,
    explain: bool,
    out: [u8; 65536],
    notes: [u8; 65536],
}

// The input has ended, unless a line is still begun.
fn end_of(reader: Reader) -> End
    ensures { result ≡ end_of reader }
{
    if is_begun(reader) {
        return End::More;
    }
    End::Ended
}

impl Answerer {
    // Writes what a call has put, and answers whether all of it is written.
    fn write(&mut self, fed: Fed) -> bool
        requires { (fed.next ≤ 65536) × (fed.noted ≤ 65536) }
    {
        let sent = self
            .streams
            .write_answers(&self.out[..fed.next], &self.notes[..fed.noted]);
        sent.left == 0
    }

    // Answers the bytes that are read and not taken yet, as far as the buffers have room for the answers.
    fn answer_piece(&mut self, name: &[u8], run: Run, input: &[u8]) -> Run
        requires { Within run × (length input.now ≡ 65536) }
        ensures { Within result × OrUnwritten result (AnswersPiece self.old.explain name.now run input.now result) }
    {
        let piece = &input[run.from..run.to];
        let fed = feed(
            run.reader,
            piece,
            self.explain,
            name,
            &mut self.out,
            &mut self.notes,
        );
        if !self.write(fed) {
            return run.stopped(End::Unwritten);
        }
        Run {
            from: run.from + fed.taken,
            end: End::More,
            ..run.after(fed)
        }
    }

    // Answers a last line without its newline.
    fn answer_end(&mut self, name: &[u8], run: Run) -> Run
        ensures { Within result × OrUnwritten result (AnswersEnd self.old.explain name.now run result) }
    {
        let fed = finish(
            run.reader,
            self.explain,
            name,
            &mut self.out,
            &mut self.notes,
        );
        if !self.write(fed) {
            return run.stopped(End::Unwritten);
        }
        Run {
            from: 0,
            to: 0,
            end: end_of(fed.reader),
            ..run.after(fed)
        }
    }

    // Answers what a read has brought.
    fn after_read(&mut self, name: &[u8], run: Run, got: Got, input: &[u8]) -> Run
        requires { Within run × (length input.now ≡ 65536) × Filled 65536 got }
        ensures { Within result × AfterRead self.old.explain name.now run got input.now result }
    {
        match got {
            Got::Again => run,
            Got::Failed(why) => {
                self.streams.tell(name, why);
                run.stopped(End::Unread)
            }
            Got::Bytes(0) => self.answer_end(name, run),
            Got::Bytes(n) => {
                let piece = Run {
                    from: 0,
                    to: n,
                    end: End::More,
                    ..run
                };
                self.answer_piece(name, piece, input)
            }
        }
    }

    // One turn: reads a piece where nothing is left of the last one, answers it, and writes the answers.
    fn turn<R: Read>(&mut self, from: &mut R, name: &[u8], run: Run, input: &mut [u8]) -> Run
        requires { Within run × (length input.old ≡ 65536) }
        ensures { Within result × Turns self.old.explain name.now run input.new result }
    {
        if run.from < run.to {
            return self.answer_piece(name, run, input);
        }
        let got = brought(from.read(input));
        self.after_read(name, run, got, input)
    }

    // Reads, answers and writes, turn after turn, until there is no more. Nothing says that an input ends, so the turns are counted, up to a
    // number that no run reaches.
    fn answer_all<R: Read>(&mut self, from: &mut R, name: &[u8]) -> Outcome
        ensures { Finished result }
    {
        let mut input = [0u8; 65536];
        let mut run = Run {
            reader: start(),
            from: 0,
            to: 0,
            refused: false,
            end: End::More,
        };
        let mut turns = 0;
        for _ in 0..u64::MAX {
            run = self.turn(from, name, run, &mut input);
            // counted by hand, so that a loop that ends early shows in the answer
            turns += 1;
            if !run.end.goes_on() {
                break;
            }
        }
        Outcome {
            end: run.end,
            refused: run.refused,
            turns,
        }
    }

    // The status of an input. Where the answers could not be written nothing more is to be read.
    fn judge(&mut self, outcome: Outcome, name: &[u8]) -> Verdict
        ensures { (result.status ≡ status_of outcome.end outcome.refused) × (result.stop ≡ stops_at outcome.end) }
    {
        match outcome.end {
            End::Ended => Verdict {
                status: if outcome.refused { 1 } else { 0 },
                stop: false,
            },
            End::Unread => Verdict {
                status: 2,
                stop: false,
            },
            End::Unwritten => Verdict {
                status: 2,
                stop: true,
            },
            End::More => {
                self.streams.tell(name, no_error());
                Verdict {
                    status: 2,
                    stop: true,
                }
            }
        }
    }

    fn answer_input<R: Read>(&mut self, from: &mut R, name: &[u8]) -> Verdict {
        let outcome = self.answer_all(from, name);
        let verdict = self.judge(outcome, name);
        Verdict {
            stop: verdict.stop || self.streams.broken,
            ..verdict
        }
    }

    // The input that the argument names.
    fn answer_argument<R: Env + Files>(&mut self, rt: &R, i: usize) -> Verdict {
        let mut name = [0u8; 4096];
        let (n, input) = self.streams.open(rt, i, &mut name);
        match input {
            Some(Input::Standard(mut input)) => self.answer_input(&mut input, &name[..n]),
            Some(Input::File(mut file)) => self.answer_input(&mut file, &name[..n]),
            None => Verdict {
                status: 2,
                stop: self.streams.broken,
            },
        }
    }

    // The inputs that the arguments from the third on name, in turn. They are all answered, unless the program is to stop.
    fn answer_arguments<R: Env + Files>(&mut self, rt: &R, count: usize) -> Answered
        ensures { result.verdict.stop ≡ false → 3 ≤ count → result.inputs + 3 ≡ count }
    {
        let mut verdict = Verdict {
            status: 0,
            stop: false,
        };
        let mut inputs = 0;
        for i in 3..count {
            verdict = verdict.and(self.answer_argument(rt, i));
            inputs += 1;
            if verdict.stop {
                break;
            }
        }
        Answered { verdict, inputs }
    }
}

// How many arguments the program was started with, its own name among them.
fn argument_count(env: &impl Env) -> usize {
    let mut text = [0u8; 1];
    for count in 0..usize::MAX {
        if let Err(FillError::NotPresent) = env.arg(count, &mut text) {
            return count;
        }
    }
    usize::MAX
}

// Whether the second argument asks for notes.
fn wants_notes(env: &impl Env) -> bool {
    let mut text = [0u8; 4];
    let n = env.arg(2, &mut text).unwrap_or(0);
    matches!(&text[..n], b"-e")
}

fn main(rt: HostRuntime) {
    let mut answerer = Answerer {
        streams: Streams {
            input: rt.stdin(),
            output: rt.stdout(),
            error: rt.stderr(),
            broken: false,
        },
        explain: wants_notes(&rt),
        out: [0u8; 65536],
        notes: [0u8; 65536],
    };
    // Where no file is named the argument that is not there stands for standard input.
    let count = argument_count(&rt).max(4);
    let answered = answerer.answer_arguments(&rt, count);
    answerer.streams.write_status(&rt, answered.verdict.status);
}
