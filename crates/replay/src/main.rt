// Replays a list of what the crate barcoders 2.0.0 answers. A line of the input has the code
// points of a label, as the label program takes them, and gives one line out: `Length` or
// `Character`, the crate's errors, or the row's cells and then the numbers of its symbols and of
// its check; for a ź that the crate takes, refusal 19 as the label program gives it. rust/answers
// makes the list by running the crate.
#![tactic(auto)]

ghost use Rattle.std.specs.Prelude.{ℕ, List, ◌≡◌, ◌≤◌, ◌++◌, length};

use lines::{ANSWER, Finished, LINE, Line};
use std::io::Read;

// What stands after the last blank, or all: there are the cells. It is the line's end.
fn after_blank(line: &[u8]) -> &[u8]
    ensures { (front : List ℕ) × (line.now ≡ front ++ result.now) }
{
    line.rsplit(|b| *b == b' ').next().unwrap_or(line)
}

// Digits as cells, as far as both reach; returns how many. What is neither 0 nor 1 becomes no cell.
fn cells(digits: &[u8], row: &mut [u8]) -> usize
    ensures { result ≤ length row.old }
{
    for (cell, digit) in row.iter_mut().zip(digits) {
        *cell = digit.wrapping_sub(b'0');
    }
    digits.len().min(row.len())
}

// Writes numbers, each with a blank before it.
fn show_numbers(rt: &impl Print, list: &[u8]) {
    for number in list {
        let _ = print!(rt; " {number}");
    }
}

// Writes the symbols that read finds in a row, and their check.
fn show_symbols(rt: &impl Print, row: &[u8]) {
    let mut list = [0u8; 4000];
    let Ok(n) = reader::read(row, &mut list) else {
        let _ = rt.write_all(b" not read");
        return;
    };
    let symbols = &list[..n];
    show_numbers(rt, symbols);
    show_numbers(rt, &[code128::checksum_value(symbols)]);
}

// Writes a row as the label program gives it, and what it is read as.
fn show_row(rt: &impl Print, digits: &[u8]) {
    let _ = rt.write_all(digits);
    let mut row = [0u8; 22552];
    let n = cells(digits, &mut row);
    show_symbols(rt, &row[..n]);
}

// Writes one line of the label program in the crate's words; an answer that the crate cannot give
// stays as it is.
fn show(rt: &impl Print, line: &[u8]) {
    let Some((_, text)) = line.split_last() else {
        return;
    };
    match text.first() {
        Some(b'0') => show_row(rt, after_blank(text)),
        Some(b'2') => {
            let _ = rt.write_all(b"Length");
        }
        Some(b'3') => {
            let _ = rt.write_all(b"Character");
        }
        _ => {
            let _ = rt.write_all(text);
        }
    }
    let _ = rt.write_all(b"\n");
}

// Goes over one chunk. The output has room for one answer, so `feed` comes back after each.
fn pump(rt: &impl Print, chunk: &[u8], line: &mut Line) {
    let mut out = [0u8; ANSWER];
    let mut at = 0;
    // Stays: `feed` says how far it came, so `at` is no count.
    while at < chunk.len() {
        let fed = lines::feed(chunk, at, line, &mut out, 0);
        at = fed.at;
        show(rt, &out[..fed.used]);
    }
}

// Reads to the input's end, which a read that fails is too, and goes over what comes. A proved loop
// has to end, so it takes a number of turns that no run uses up.
// Stays: near to the label program's own, but it shows each answer and tells no failure.
fn drain(rt: &impl Print, input: &mut impl Read, line: &mut Line) {
    let mut chunk = [0u8; 65536];
    for _ in 0..u64::MAX {
        let n = input.read(&mut chunk).unwrap_or(0);
        if n == 0 {
            break;
        }
        pump(rt, &chunk[..n], line);
    }
}

// Replays all lines, a last one without newline too.
#[tactic(auto, unfolding(lines::specs::Given::bytes_of))]
fn main(rt: HostRuntime) {
    let mut line = Line {
        bytes: [0; LINE],
        len: 0,
    };
    drain(&rt, &mut rt.stdin(), &mut line);
    let mut out = [0u8; ANSWER];
    // Else there is no last line, since there is room for every answer.
    if let Finished::Line(n) = lines::finish(&line, &mut out) {
        show(&rt, &out[..n]);
    }
}
