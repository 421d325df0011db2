// The label program's work on slices: the lines of an input that comes in chunks, one line out
// for each.
#![tactic(auto)]

ghost use Rattle.std.specs.Prelude.{ℕ, ◌≤◌, ◌≡◌, List, length};
ghost use Rattle.lines.specs.Lines.{newlines};
ghost use Rattle.lines.specs.Given.{Holds, Feeds, Finishes, bytes_of};

use line::answer_line;

mod split;

// The first bytes of a line, which say what it gives: a line that has more than 4,096 is `?`
// whatever follows.
pub const LINE: usize = 4097;

// No answer has more bytes.
pub const ANSWER: usize = 22560;

// A line that is being read: its first bytes, and how many they are. A number past the buffer's end
// is taken for its end.
// Stays: no ghost field bounds `len`, since `feed` and `finish` may ask nothing of it.
#[derive(Drop)]
pub struct Line {
    pub bytes: [u8; LINE],
    pub len: usize,
}

// Where the work on a chunk stands: the place in it, how much of the output is filled, and how
// many answers are new in that.
#[derive(Clone, Copy)]
pub struct Stand {
    pub at: usize,
    pub used: usize,
    pub new: usize,
}

// What the input's end gives: no line, an answer for which there is no room, or how many bytes the
// answer has.
// Stays: three cases, which an Option in a Result would give no names; `Finishes` goes by them.
#[derive(Clone, Copy)]
pub enum Finished {
    NoLine,
    NoRoom,
    Line(usize),
}

// Goes over the lines of a chunk and stores what they give into `out`, while it surely has room
// for one more. It stops at the chunk's end, after a whole line or, where there is no room at
// first, where it began.
// Stays: `Feeds` speaks of any place, one past the end too; a part would ask that the place is
// within the slice.
pub fn feed(chunk: &[u8], from: usize, line: &mut Line, out: &mut [u8], stored: usize) -> Stand
    ensures { Feeds chunk.now from line.old.bytes line.old.len out.old stored result.at line.new.bytes line.new.len out.new result.used result.new }
{
    line.len = line.len.min(LINE);
    let mut at = from;
    let mut used = stored;
    let mut new = 0;
    // Stays: a turn passes a whole line, and `at` is a place that is given back, no count.
    while at < chunk.len() && ANSWER <= out.len().saturating_sub(used) {
        let Some(newline) = line.gather(chunk, at) else {
            return Stand {
                at: chunk.len(),
                used,
                new,
            };
        };
        used += answer_line(line.as_slice(), &mut out[used..]);
        line.len = 0;
        at = newline + 1;
        new += 1;
    }
    Stand { at, used, new }
}

// What the last line gives where the input ends without a newline, at the front of `out`, where
// it fits.
#[tactic(auto, using(line::proofs::Texts::wrote_within), unfolding(crate::specs::Given::bytes_of))]
pub fn finish(line: &Line, out: &mut [u8]) -> Finished
    ensures by_index { (cur : List ℕ) → Holds cur line.now.bytes line.now.len → Finishes result cur out.old out.new }
    ensures result_in_bounds { bytes_of result ≤ length out.old }
{
    let held = line.as_slice();
    if held.is_empty() {
        Finished::NoLine
    } else {
        // Stays: the 0 of an answer that does not fit is a clause of answer_line.
        match answer_line(held, out) {
            0 => Finished::NoRoom,
            written => Finished::Line(written),
        }
    }
}

// How many newlines there are: each ends an answer.
pub fn count_lines(text: &[u8]) -> usize
    ensures { result ≡ newlines text.now }
{
    text.iter().filter(|b| **b == b'\n').count()
}
