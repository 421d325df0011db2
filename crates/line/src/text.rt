// From an answer to the line that says it.
ghost use Rattle.std.specs.Prelude.{◌+◌, ◌<◌, ◌≤◌, ◌≡◌, [], ◌∷◌, ◌++◌, map, length};
ghost use Rattle.helpers.specs.Answers.{Each, refuse, accept};
ghost use Rattle.helpers.specs.Numbers.{refusal_number, refusal_second};
ghost use Rattle.helpers.specs.Terms.{Stored};
ghost use Rattle.paper.specs.Jobs.{encode, row_length, most};
ghost use Rattle.line.specs.Line.{decimal, answer_line, Wrote};

use helpers::Refusal;

// Stores the decimal digits of `n` from place `at` on; returns the place after them.
// Stays: no clause says that `write!` of a number fits where there is room; itoa has unsafe code.
fn decimal(out: &mut [u8], at: usize, n: usize) -> usize
    requires { at + length (decimal n) ≤ length out.old }
    ensures { Stored (decimal n) out.old at out.new result }
{
    let end = if n < 10 { at } else { decimal(out, at, n / 10) };
    out[end] = b'0' + (n % 10) as u8;
    end + 1
}

// Stores an answer's two numbers, a blank between them, at the front of `out`; returns the place
// after them.
// Stays: it returns a place and no slice of `out`, since a row's head goes on after it.
fn put_numbers(out: &mut [u8], number: usize, second: usize) -> usize
    requires { length (decimal number ++ (32 ∷ decimal second)) ≤ length out.old }
    ensures { Stored (decimal number ++ (32 ∷ decimal second)) out.old 0 out.new result }
{
    let at = decimal(out, 0, number);
    out[at] = b' ';
    decimal(out, at + 1, second)
}

// Writes a line at the front of `out`, where it fits: `head`, the cells, a newline. Returns how
// many bytes were written.
// Stays: 0 where it does not fit, which `answer_line` and `Wrote` promise.
pub(crate) fn write_line(head: &[u8], cells: &[u8], out: &mut [u8]) -> usize
    requires { Each (λ c. c ≤ 1) cells.now }
    ensures { Wrote (head.now ++ map (λ c. 48 + c) cells.now ++ (10 ∷ [])) result out.old out.new }
{
    let at = head.len();
    let end = at + cells.len();
    if out.len() <= end {
        return 0;
    }
    helpers::join_slices(out, head);
    // Stays: by index: no element is known after iter_mut().zip, and enumerate indexes cells.
    for (j, c) in cells.iter().enumerate() {
        out[at + j] = b'0' + *c;
    }
    out[end] = b'\n';
    end + 1
}

// Writes a refusal's line: its number and its second number.
fn write_refusal(refusal: Refusal, out: &mut [u8]) -> usize
    requires { (refusal_number refusal < 10000) × (refusal_second refusal < 10000) }
    ensures { Wrote (answer_line (refuse (refusal_number refusal) (refusal_second refusal)) ++ (10 ∷ [])) result out.old out.new }
{
    let mut head = [0u8; 12];
    let end = put_numbers(&mut head, refusal.number() as usize, refusal.second());
    write_line(&head[..end], &[], out)
}

// Writes an acceptance's line: 0, the number of symbols and the row's cells.
// Stays: its head ends in a blank, a refusal's does not; what both have is put_numbers.
fn write_row(n: usize, cells: &[u8], out: &mut [u8]) -> usize
    requires { (n < 10000) × Each (λ c. c ≤ 1) cells.now }
    ensures { Wrote (answer_line (accept n cells.now) ++ (10 ∷ [])) result out.old out.new }
{
    let mut head = [0u8; 12];
    let at = put_numbers(&mut head, 0, n);
    head[at] = b' ';
    write_line(&head[..=at], cells, out)
}

// Writes what a line's code points give: encode's answer, by way of a row of `N` cells, which has
// room for as many symbols as there are code points.
fn answer_in<const N: usize>(text: &[u32], out: &mut [u8]) -> usize
    requires { (length text.now ≤ 2048) × (row_length (length text.now) ≤ N) × (N ≤ 22552) }
    ensures { Wrote (answer_line (encode (row_length most) text.now) ++ (10 ∷ [])) result out.old out.new }
{
    let mut row = [0u8; N];
    match code128::encode(text, &mut row) {
        Ok(n) => write_row(n, &row[..11 * n + 24], out),
        Err(refusal) => write_refusal(refusal, out),
    }
}

// Writes what a line's code points give: encode's answer. A text has no more symbols than code
// points, and a row is cleared before it is used: so a short text takes a short one.
#[tactic(auto, unfolding(paper::specs::Jobs::row_length))]
pub(crate) fn answer_points(text: &[u32], out: &mut [u8]) -> usize
    requires { length text.now ≤ 2048 }
    ensures { Wrote (answer_line (encode (row_length most) text.now) ++ (10 ∷ [])) result out.old out.new }
{
    match text.len() {
        0..=128 => answer_in::<1432>(text, out),
        129..=512 => answer_in::<5656>(text, out),
        _ => answer_in::<22552>(text, out),
    }
}
