// Lines out of chunks, however the input is cut.
ghost use Rattle.std.specs.Prelude.{ℕ, ◌<◌, ◌≤◌, ◌≡◌, List, [], ◌++◌, length, get_or, take, position, eqb, unwrap_or, IfSome};
ghost use Rattle.lines.specs.Given.{Holds, Fed};

use crate::{LINE, Line};

// The place of the first newline.
fn newline(rest: &[u8]) -> Option<usize>
    ensures { result ≡ position (λ c. eqb c 10) rest.now }
{
    rest.iter().position(|b| *b == b'\n')
}

impl Line {
    // The bytes that are held.
    pub(crate) fn as_slice(&self) -> &[u8]
        ensures { result.now ≡ take self.now.len self.now.bytes }
    {
        &self.bytes[..self.len.min(LINE)]
    }

    // More bytes of the line. A full buffer keeps what it has: it shows that the line is too long,
    // whatever follows.
    fn push(&mut self, part: &[u8])
        requires { self.old.len ≤ 4097 }
        ensures upper_bound { self.new.len ≤ 4097 }
        ensures by_index { (cur : List ℕ) → Holds cur self.old.bytes self.old.len → Holds (cur ++ part.now) self.new.bytes self.new.len }
    {
        let n = part.len().min(LINE - self.len);
        let end = self.len + n;
        self.bytes[self.len..end].copy_from_slice(&part[..n]);
        self.len = end;
    }

    // Goes on with the line to the next newline, whose place it returns, or to the chunk's end.
    pub(crate) fn gather(&mut self, chunk: &[u8], at: usize) -> Option<usize>
        requires { (self.old.len ≤ 4097) × (at < length chunk.now) }
        ensures fed { Fed chunk.now at self.old.bytes self.old.len [] (unwrap_or result (length chunk.now)) self.new.bytes self.new.len }
        ensures at_value { IfSome result (λ k. (k < length chunk.now) × (get_or chunk.now k 0 ≡ 10)) }
    {
        let rest = &chunk[at..];
        match newline(rest) {
            Some(n) => {
                self.push(&rest[..n]);
                Some(at + n)
            }
            None => {
                self.push(rest);
                None
            }
        }
    }
}
