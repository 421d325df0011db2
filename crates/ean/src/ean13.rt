// EAN-13 after `src/sym/ean13.rs` of barcoders 2.0.0: the tables, and twelve digits, or thirteen
// with the check verified, to a row of 95 cells.
ghost use Rattle.std.specs.Prelude.{◌+◌, ◌*◌, ◌<◌, ◌≤◌, true, ◌≡◌, [], length, get_or, take, eqb, not, position};
ghost use Rattle.std.proofs.lemmas.List.Edits.{sets};
ghost use Rattle.helpers.specs.Answers.{Each, accept, ◌then◌, every, Gave};
ghost use Rattle.helpers.specs.Numbers.{number_of, second_of};
ghost use Rattle.helpers.specs.Terms.{answers};
ghost use Rattle.ean.specs.Ean13.{is_digit, values_of, in_sets, ean13_row, write_ean13};
ghost use Rattle.ean.specs.Terms.{Digit, Side, parsed, tested, listed};

use helpers::{Answer, Refusal};

// The cells of the digits 0 to 9 in the sets A, B and C: the left side with odd parity and with
// even parity, and the right side.
pub const ENCODINGS: [[[u8; 7]; 10]; 3] = [
    [
        [0, 0, 0, 1, 1, 0, 1],
        [0, 0, 1, 1, 0, 0, 1],
        [0, 0, 1, 0, 0, 1, 1],
        [0, 1, 1, 1, 1, 0, 1],
        [0, 1, 0, 0, 0, 1, 1],
        [0, 1, 1, 0, 0, 0, 1],
        [0, 1, 0, 1, 1, 1, 1],
        [0, 1, 1, 1, 0, 1, 1],
        [0, 1, 1, 0, 1, 1, 1],
        [0, 0, 0, 1, 0, 1, 1],
    ],
    [
        [0, 1, 0, 0, 1, 1, 1],
        [0, 1, 1, 0, 0, 1, 1],
        [0, 0, 1, 1, 0, 1, 1],
        [0, 1, 0, 0, 0, 0, 1],
        [0, 0, 1, 1, 1, 0, 1],
        [0, 1, 1, 1, 0, 0, 1],
        [0, 0, 0, 0, 1, 0, 1],
        [0, 0, 1, 0, 0, 0, 1],
        [0, 0, 0, 1, 0, 0, 1],
        [0, 0, 1, 0, 1, 1, 1],
    ],
    [
        [1, 1, 1, 0, 0, 1, 0],
        [1, 1, 0, 0, 1, 1, 0],
        [1, 1, 0, 1, 1, 0, 0],
        [1, 0, 0, 0, 0, 1, 0],
        [1, 0, 1, 1, 1, 0, 0],
        [1, 0, 0, 1, 1, 1, 0],
        [1, 0, 1, 0, 0, 0, 0],
        [1, 0, 0, 0, 1, 0, 0],
        [1, 0, 0, 1, 0, 0, 0],
        [1, 1, 1, 0, 1, 0, 0],
    ],
];

// The sets of the six digits left of the centre, for each first digit.
// Stays: sets as numbers: they index ENCODINGS, so an enum would be cast at each use.
pub const PARITY: [[u8; 6]; 10] = [
    [0, 0, 0, 0, 0, 0],
    [0, 0, 1, 0, 1, 1],
    [0, 0, 1, 1, 0, 1],
    [0, 0, 1, 1, 1, 0],
    [0, 1, 0, 0, 1, 1],
    [0, 1, 1, 0, 0, 1],
    [0, 1, 1, 1, 0, 0],
    [0, 1, 0, 1, 0, 1],
    [0, 1, 0, 1, 1, 0],
    [0, 1, 1, 0, 1, 0],
];

// The sets of the six digits right of the centre.
const RIGHT: [u8; 6] = [2; 6];

// The left-hand guard pattern.
pub const LEFT_GUARD: [u8; 3] = [1, 0, 1];

// The middle guard pattern.
pub const MIDDLE_GUARD: [u8; 5] = [0, 1, 0, 1, 0];

// The right-hand guard pattern.
pub const RIGHT_GUARD: [u8; 3] = [1, 0, 1];

// The cells of a row.
pub const CELLS: usize = 95;

// The place of the first byte that is not a digit.
#[tactic(auto, unfolding(crate::specs::Ean13::is_digit))]
fn first_other(text: &[u8]) -> Option<usize>
    ensures { result ≡ position (λ c. not (is_digit c)) text.now }
{
    text.iter().position(|c| !c.is_ascii_digit())
}

// The test of every byte: 31 at the first that is not a digit.
fn digits_only(text: &[u8]) -> Answer
    ensures { answers result ≡ (every is_digit 31 0 text.now then accept (length text.now) []) }
{
    match first_other(text) {
        Some(k) => Err(Refusal::Digit(k)),
        None => Ok(text.len()),
    }
}

// The tests of a text before its check digit: 30, 31.
fn parse(text: &[u8]) -> Answer
    ensures { answers result ≡ parsed text.now }
{
    match text.len() {
        12 | 13 => digits_only(text),
        n => Err(Refusal::TextLength(n)),
    }
}

// The first twelve digits of a text, as numbers, at the front of `digits`.
// Stays: written by index, since a proof knows no element after a `zip` with `iter_mut`.
fn put_values(text: &[u8], digits: &mut [u8; 13])
    requires { (12 ≤ length text.now) × Each (λ c. is_digit c ≡ true) text.now }
    ensures { digits.new ≡ sets digits.old 0 (take 12 (values_of text.now)) }
{
    for (i, c) in text[..12].iter().enumerate() {
        digits[i] = c - b'0';
    }
}

// Whether the thirteenth digit of a text, where there is one, is the check.
fn verified(text: &[u8], check: u8) -> bool
    requires { Each (λ c. is_digit c ≡ true) text.now }
    ensures { result ≡ eqb (get_or (values_of text.now) 12 check) check }
{
    match text.get(12) {
        Some(c) => c - b'0' == check,
        None => true,
    }
}

// The thirteen digits of a text, as numbers: the tests before that of the room, 30, 31, 32.
fn list_digits(text: &[u8]) -> Result<[u8; 13], Refusal>
    ensures { listed result ≡ tested text.now }
{
    parse(text)?;
    let mut digits = [0; 13];
    put_values(text, &mut digits);
    let check = helpers::modulo_10_checksum(&digits[..12], true);
    if !verified(text, check) {
        return Err(Refusal::CheckDigit(usize::from(check)));
    }
    digits[12] = check;
    Ok(digits)
}

// Writes some digits into the front of `part`, one after the other, each in its set.
// Stays: cut by index, since a proof knows no element after `chunks_exact_mut`.
// Stays: sides is a row of PARITY, and its digits stand in another array.
fn payload(part: &mut [u8], sides: &[u8], digits: &[u8])
    requires { Each Side sides.now × Each Digit digits.now × (length sides.now ≡ length digits.now) × (7 * length sides.now ≤ length part.old) }
    ensures { part.new ≡ sets part.old 0 (in_sets sides.now digits.now) }
{
    for (k, (side, digit)) in sides.iter().zip(digits).enumerate() {
        let cells = &ENCODINGS[usize::from(*side)][usize::from(*digit)];
        helpers::join_slices(&mut part[7 * k..7 * k + 7], cells);
    }
}

// Writes the row of thirteen digits: the first is not drawn, and chooses the sets of the next six.
fn draw(digits: &[u8; 13], row: &mut [u8])
    requires { Each Digit digits.now × (95 ≤ length row.old) }
    ensures { row.new ≡ sets row.old 0 (ean13_row digits.now) }
{
    let first = usize::from(digits[0]);
    helpers::join_slices(&mut row[..3], &LEFT_GUARD);
    payload(&mut row[3..45], &PARITY[first], &digits[1..7]);
    helpers::join_slices(&mut row[45..50], &MIDDLE_GUARD);
    payload(&mut row[50..92], &RIGHT, &digits[7..]);
    helpers::join_slices(&mut row[92..95], &RIGHT_GUARD);
}

// Write: twelve digits, or thirteen with the check, to a row: 30, 31, 32, 5.
pub fn write(text: &[u8], row: &mut [u8]) -> Answer
    ensures { Gave (write_ean13 (length row.old) text.now) (number_of result) (second_of result) row.old row.new }
{
    let digits = list_digits(text)?;
    if row.len() < CELLS {
        return Err(Refusal::Room(CELLS));
    }
    draw(&digits, row);
    Ok(CELLS)
}
