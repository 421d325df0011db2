// The label program: a line of code points in, a line with encode's answer out. Its memory is three
// buffers, however much it reads. Where a read or a write fails it ends, and says so on standard
// error, with how many lines were answered in full. A pipe whose reader goes away is a write that
// fails, since a program of this language starts with SIGPIPE ignored; bin/label then gives that
// signal's status all the same, unless it is ignored there.
#![tactic(auto)]

ghost use Rattle.std.specs.Prelude.{ℕ, ◌≡◌, ◌+◌, ◌≤◌, drop, length, IfErr};

use lines::{ANSWER, Finished, LINE, Line};
use std::fmt::InlineText;
use std::io::Read;
use std::{fmt, io};

// The bytes of the output's buffer: 65,536, and one answer.
const OUT: usize = 88096;

// What ends a run before the input's end.
#[derive(Drop)]
enum Failure {
    Read(io::Error),
    Write(io::Error),
}

// Says what failed and why: the system's words for the error. (`io::Error` writes its number after
// them, as ` (os error 28)`; that is cut off. 96 bytes hold both.)
impl fmt::Display for Failure {
    fn fmt<W: fmt::Write>(&self, f: &mut fmt::Formatter<W>) -> fmt::Result {
        let (what, error) = match self {
            Failure::Read(e) => ("read standard input", e),
            Failure::Write(e) => ("write standard output", e),
        };
        let text = InlineText::<96>::of(error);
        let whole = text.as_str();
        let words = match whole.rsplit_once(" (os error ") {
            Some((words, _)) => words,
            None => whole,
        };
        write!(f, "cannot {what}: {words}")
    }
}

// A write that failed or took nothing: what did not go out, and why.
#[derive(Drop)]
struct Unsent<'a> {
    rest: &'a [u8],
    error: io::Error,
}

// Writes bytes out, by as many writes as it takes.
fn write_out<'a>(rt: &impl Print, bytes: &'a [u8]) -> Result<(), Unsent<'a>>
    ensures { IfErr result (λ e. (k : ℕ) × (e.rest.now ≡ drop k bytes.now)) }
{
    let mut rest = bytes;
    // Stays: a write says how much of `rest` went out; there is nothing to go over one by one.
    while !rest.is_empty() {
        match rt.write_some(rest) {
            Ok(0) => {
                // No error has the number 0.
                let error = io::Error::from_raw_os_error(0);
                return Err(Unsent { rest, error });
            }
            Ok(n) => rest = &rest[n..],
            Err(error) => return Err(Unsent { rest, error }),
        }
    }
    Ok(())
}

// A run between two reads: the line that is being read; the output, and how much of it is filled,
// which leaves room for one more answer; and how many lines are answered, those in the output among
// them.
#[derive(Drop)]
struct Run {
    line: Line,
    out: [u8; OUT],
    used: usize,
    answered: u64,
    ghost room: { used + 22560 ≤ length out },
}

impl Run {
    // Writes out the first bytes of the output. A write that fails ends the run: a line whose
    // newline did not go out is not answered in full. (No run answers 2^64 lines, so no sum here
    // wraps; what is taken off was added before.)
    fn flush(&mut self, rt: &impl Print, used: usize) -> Result<(), Failure>
        requires { used ≤ length self.old.out }
        ensures { self.new.used ≡ 0 }
    {
        self.used = 0;
        match write_out(rt, &self.out[..used]) {
            Ok(()) => Ok(()),
            Err(unsent) => {
                let left = lines::count_lines(unsent.rest);
                self.answered = self.answered.wrapping_sub(left as u64);
                Err(Failure::Write(unsent.error))
            }
        }
    }

    // Keeps the first bytes of the output, or writes them out where there is no room for one more
    // answer, so that `feed` can get on.
    fn relieve(&mut self, rt: &impl Print, used: usize) -> Result<(), Failure>
        requires { used ≤ length self.old.out }
    {
        if OUT - ANSWER < used {
            self.flush(rt, used)
        } else {
            self.used = used;
            Ok(())
        }
    }

    // Goes over one chunk; the output is written out as often as it is full.
    fn pump(&mut self, rt: &impl Print, chunk: &[u8]) -> Result<(), Failure> {
        let mut at = 0;
        // Stays: `feed` says how far it came, so `at` is no count.
        while at < chunk.len() {
            let fed = lines::feed(chunk, at, &mut self.line, &mut self.out, self.used);
            at = fed.at;
            self.answered = self.answered.wrapping_add(fed.new as u64);
            self.relieve(rt, fed.used)?;
        }
        Ok(())
    }

    // Reads to the input's end and goes over what comes. A read that fails ends the run, and the
    // line that it cut is not answered. A proved loop has to end, and nothing says that the input
    // does: so it takes a number of turns that no run uses up.
    fn drain(&mut self, rt: &impl Print, input: &mut impl Read) -> Result<(), Failure> {
        let mut chunk = [0u8; 65536];
        for _ in 0..u64::MAX {
            let n = input.read(&mut chunk).map_err(Failure::Read)?;
            if n == 0 {
                break;
            }
            self.pump(rt, &chunk[..n])?;
        }
        Ok(())
    }

    // At the input's end writes what is left: the output so far, and what a last line without
    // newline gives.
    #[tactic(auto, unfolding(lines::specs::Given::bytes_of))]
    fn end(&mut self, rt: &impl Print) -> Result<(), Failure> {
        let used = self.used;
        self.flush(rt, used)?;
        // Else there is no last line, since there is room for every answer.
        if let Finished::Line(n) = lines::finish(&self.line, &mut self.out) {
            self.answered = self.answered.wrapping_add(1);
            self.flush(rt, n)?;
        }
        Ok(())
    }
}

// Says a failure on standard error.
fn say(rt: &impl Eprint, failure: Failure) {
    let _ = eprintln!(rt; "label: {failure}");
}

// Says after a failure how many lines were answered in full, so that it is known where to go on.
fn tell(rt: &impl Eprint, answered: u64) {
    let _ = eprintln!(rt; "label: lines answered in full: {answered}");
}

// Reads all, and writes what is left; after a failed read too, but for the line that it cut.
fn main(rt: HostRuntime) {
    let mut run = Run {
        line: Line {
            bytes: [0; LINE],
            len: 0,
        },
        out: [0; OUT],
        used: 0,
        answered: 0,
    };
    if let Err(failure) = run.drain(&rt, &mut rt.stdin()) {
        say(&rt, failure);
        let used = run.used;
        if let Err(failure) = run.flush(&rt, used) {
            say(&rt, failure);
        }
        tell(&rt, run.answered);
    } else if let Err(failure) = run.end(&rt) {
        say(&rt, failure);
        tell(&rt, run.answered);
    }
}
