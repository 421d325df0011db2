// Runs calls of all nine jobs, one for each line of its input, and writes what each answers and
// what the lent buffer then holds: the labels of document 01 and their neighbours, numbers of
// EAN-13, and damaged rows. It is no label program (crates/label is that): it shows what the label
// program cannot, the other jobs and every element of lent memory. A line has a job's letter, the
// buffer's length and the input, in upper-case hex:
//
//     E 23 C0
//
// and the answer has the two numbers, in decimal, and every element of the buffer, in hex. A
// buffer is lent full of 77.
#![tactic(auto)]

ghost use Rattle.std.specs.Prelude.{◌<◌, ◌≤◌, length, IfSome};

use helpers::Answer;
use std::io::Read;

// The value of an upper-case hex digit.
// Stays: the library's `to_digit(16)` takes a to f too.
fn digit(b: u8) -> Option<u32>
    ensures { IfSome result (λ d. d < 16) }
{
    match b {
        b'0'..=b'9' => Some(u32::from(b - b'0')),
        b'A'..=b'F' => Some(u32::from(b - b'A' + 10)),
        _ => None,
    }
}

// The number of a word of hex digits and the byte that ends it; its last seven digits count.
fn number(word: &[u8]) -> u32 {
    let mut value = 0;
    for b in word {
        if let Some(d) = digit(*b) {
            value = value % 0x1000000 * 16 + d;
        }
    }
    value
}

// The numbers of a line, as far as `values` reaches; returns how many. Any byte that is no digit
// ends a number.
fn words(line: &[u8], values: &mut [u32]) -> usize
    ensures { result ≤ length values.old }
{
    let mut n = 0;
    // Stays: `n` is given back, and how many words there are is not known before.
    for word in line.split_inclusive(|b| digit(*b).is_none()) {
        let Some(value) = values.get_mut(n) else {
            break;
        };
        *value = number(word);
        n += 1;
    }
    n
}

// The numbers as bytes, for the jobs that take bytes; returns how many.
fn narrow(values: &[u32], bytes: &mut [u8]) -> usize
    ensures { result ≤ length bytes.old }
{
    for (byte, value) in bytes.iter_mut().zip(values) {
        *byte = (*value % 256) as u8;
    }
    values.len().min(bytes.len())
}

// What the job of a letter answers, given code points or bytes: every job but spell, whose buffer
// is of code points.
// Stays: the letter is input, and each job is called by its name.
fn ask(letter: u8, text: &[u32], bytes: &[u8], out: &mut [u8]) -> Answer {
    match letter {
        b'D' => code128::draw(bytes, out),
        b'R' => reader::read(bytes, out),
        b'N' => speller::scan(bytes, out),
        b'P' => record::pack(bytes, out),
        b'U' => record::unpack(bytes, out),
        b'W' => ean::ean13::write(bytes, out),
        b'T' => ean_reader::ean13::read(bytes, out),
        _ => code128::encode(text, out),
    }
}

// Writes an answer's two numbers.
fn show_numbers(rt: &impl Print, answer: Answer) {
    let _ = print!(rt;
        "{} {}",
        helpers::number_of(answer),
        helpers::second_of(answer)
    );
}

// Writes every byte of a buffer, so that one written past the output is seen.
fn show_bytes(rt: &impl Print, out: &[u8]) {
    let _ = print!(rt; " ");
    for byte in out {
        let _ = print!(rt; "{byte:02x}");
    }
    let _ = println!(rt);
}

// The same of a buffer of code points, each with a blank before it.
// Stays: it has a format of its own, which has to stand in the macro.
fn show_letters(rt: &impl Print, out: &[u32]) {
    for letter in out {
        let _ = print!(rt; " {letter:x}");
    }
    let _ = println!(rt);
}

// Runs the job of a letter, lent a buffer of `room` elements that are all 77, and shows what it
// did.
// Stays: two branches, since the buffer of spell is of code points.
fn run(rt: &impl Print, letter: u8, room: usize, input: &[u32])
    requires { room ≤ 3072 }
{
    let mut bytes = [0; 3072];
    let n = narrow(input, &mut bytes);
    if letter == b'S' {
        let mut letters = [0x77; 3072];
        show_numbers(rt, speller::spell(&bytes[..n], &mut letters[..room]));
        show_letters(rt, &letters[..room]);
    } else {
        let mut out = [0x77; 3072];
        show_numbers(rt, ask(letter, input, &bytes[..n], &mut out[..room]));
        show_bytes(rt, &out[..room]);
    }
}

// Runs the call of one line: the job's letter, the buffer's length, the input.
fn line(rt: &impl Print, text: &[u8]) {
    if text.len() < 3 {
        return;
    }
    let mut values = [0; 3072];
    let n = words(&text[2..], &mut values);
    if let [room, input @ ..] = &values[..n] {
        run(rt, text[0], (*room as usize).min(3072), input);
    }
}

// Reads until `input` is full, the input ends or a read fails; returns how many bytes there are.
fn read_full(from: &mut impl Read, input: &mut [u8]) -> usize
    ensures { result ≤ length input.new }
{
    let mut done = 0;
    // Stays: a read says how many bytes came, so `done` is no count.
    while done < input.len() {
        let Ok(n @ 1..) = from.read(&mut input[done..]) else {
            break;
        };
        done += n;
    }
    done
}

// Reads the whole input, which fits 262,144 bytes, and runs its calls.
fn main(rt: HostRuntime) {
    let mut input = [0; 262144];
    let n = read_full(&mut rt.stdin(), &mut input);
    for text in input[..n].split(|b| *b == b'\n') {
        line(&rt, text);
    }
}
