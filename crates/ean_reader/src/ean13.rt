// EAN-13: a row of 95 cells back to its thirteen digits.
ghost use Rattle.std.specs.Prelude.{◌+◌, ◌<◌, ◌≤◌, true, false, ◌≡◌, ◌&&◌, map, length, take, position, MatchOption, nat_eq, get_or, []};
ghost use Rattle.std.specs.Int.{w32, from_le_bytes};
ghost use Rattle.std.specs.Cmp.Lexicographic.{pointwise};
ghost use Rattle.std.proofs.lemmas.List.Edits.{sets};
ghost use Rattle.helpers.specs.Answers.{Each, Gave};
ghost use Rattle.helpers.specs.Numbers.{number_of, second_of};
ghost use Rattle.ean.specs.Ean13.{digit_in, left_set, first_of, digits_read, read_ean13};
ghost use Rattle.ean.specs.Terms.{Digit, Found, LeftOf, sets_left, digits_left, digits_right, framed, all_digits, checked};

use ean::ean13::{CELLS, ENCODINGS, LEFT_GUARD, MIDDLE_GUARD, PARITY, RIGHT_GUARD};
use helpers::{Answer, Refusal};

// A digit left of the centre, and the set that it is drawn in.
// Stays: the set as 0 or 1, as in ean's PARITY: six of them are looked up as one of its rows.
#[derive(Drop)]
struct Drawn {
    side: u8,
    digit: u8,
}

// Four cells as one number.
fn quad(cells: &[u8]) -> u32
    requires { 4 ≤ length cells.now }
    ensures { result ≡ from_le_bytes w32 (take 4 cells.now) }
{
    u32::from_le_bytes([cells[0], cells[1], cells[2], cells[3]])
}

// Whether two lists of cells are the same: the first four are asked at once, so that most that
// differ are told by one test.
// Stays: with `list == cells` read takes 1.58 of the time, and misses 1.5 of plain Rust's, its bar.
fn same_cells(list: &[u8], cells: &[u8]) -> bool
    requires { (4 ≤ length list.now) × (length list.now ≡ length cells.now) }
    ensures { result ≡ pointwise nat_eq list.now cells.now }
{
    quad(list) == quad(cells) && list[4..] == cells[4..]
}

// The place of some cells in a table.
// Stays: 4 ≤ N is asked, since same_cells, kept for speed, asks the first four at once.
fn place_of<const N: usize>(table: &[[u8; N]; 10], cells: &[u8; N]) -> Option<usize>
    requires { 4 ≤ N }
    ensures { result ≡ position (λ list. pointwise nat_eq list cells.now) table.now }
{
    let is = |list: &[u8; N]| -> bool
        requires { 4 ≤ length cells.now }
        ensures { result ≡ pointwise nat_eq list.now cells.entry.now }
    { same_cells(list, cells) };
    table.iter().position(is)
}

// The digit whose list in a table is these cells.
fn find<const N: usize>(table: &[[u8; N]; 10], cells: &[u8; N]) -> Option<u8>
    requires { 4 ≤ N }
    ensures { Found result (first_of (λ d. get_or table.now d []) 10 0 cells.now) }
{
    let d = place_of(table, cells)?;
    Some(d as u8)
}

// The digit left of the centre that some cells are: of A, or if it is none of A, of B.
fn left_digit(cells: &[u8; 7]) -> Option<Drawn>
    ensures { MatchOption result (digit_in (left_set cells.now) cells.now ≡ 10) (λ x. LeftOf cells.now x.side x.digit) }
{
    match find(&ENCODINGS[0], cells) {
        Some(digit) => Some(Drawn { side: 0, digit }),
        None => Some(Drawn {
            side: 1,
            digit: find(&ENCODINGS[1], cells)?,
        }),
    }
}

// The six digits left of the centre, after their sets.
// Stays: two arrays, not six `Drawn`, since the six sets are looked up as one row of PARITY.
fn left_digits(row: &[u8; CELLS]) -> Option<([u8; 6], [u8; 6])>
    ensures { MatchOption result (all_digits (digits_left row.now) ≡ false) (λ p. (p.0 ≡ sets_left row.now) × (p.1 ≡ digits_left row.now) × (all_digits (digits_left row.now) ≡ true)) }
{
    let mut sides = [0; 6];
    let mut digits = [0; 6];
    let (blocks, _) = row[3..45].as_chunks::<7>();
    for (k, cells) in blocks.iter().enumerate() {
        let left = left_digit(cells)?;
        // Stays: by index: two arrays, and after a zip with iter_mut a proof knows no element.
        sides[k] = left.side;
        digits[k] = left.digit;
    }
    Some((sides, digits))
}

// The six digits right of the centre.
fn right_digits(row: &[u8; CELLS]) -> Option<[u8; 6]>
    ensures { MatchOption result (all_digits (digits_right row.now) ≡ false) (λ ds. (ds ≡ digits_right row.now) × (all_digits (digits_right row.now) ≡ true)) }
{
    let mut digits = [0; 6];
    let (blocks, _) = row[50..92].as_chunks::<7>();
    for (k, cells) in blocks.iter().enumerate() {
        // Stays: by index: no element is known after iter_mut().zip, and enumerate indexes blocks.
        digits[k] = find(&ENCODINGS[2], cells)?;
    }
    Some(digits)
}

// The thirteen digits that a row can be of.
fn read_digits(row: &[u8; CELLS]) -> Option<[u8; 13]>
    ensures { MatchOption result (all_digits (digits_read row.now) ≡ false) (λ ds. (ds ≡ digits_read row.now) × (all_digits (digits_read row.now) ≡ true)) }
{
    let (sides, left) = left_digits(row)?;
    let right = right_digits(row)?;
    let mut digits = [0; 13];
    digits[0] = find(&PARITY, &sides)?;
    digits[1..7].copy_from_slice(&left);
    digits[7..].copy_from_slice(&right);
    Some(digits)
}

// Whether a row of the right length has the guards.
fn has_guards(row: &[u8; CELLS]) -> bool
    ensures { result ≡ framed row.now }
{
    row[..3] == LEFT_GUARD[..] && row[45..50] == MIDDLE_GUARD[..] && row[92..95] == RIGHT_GUARD[..]
}

// The thirteen digits of a row that has the length and the guards, all digits, and the check last.
fn digits_of(row: &[u8]) -> Option<[u8; 13]>
    ensures { MatchOption result ((framed row.now && checked (digits_read row.now)) ≡ false) (λ ds. (ds ≡ digits_read row.now) × ((framed row.now && checked (digits_read row.now)) ≡ true)) }
{
    let row = row.as_array::<CELLS>()?;
    if !has_guards(row) {
        return None;
    }
    let digits = read_digits(row)?;
    let check = helpers::modulo_10_checksum(&digits[..12], true);
    if digits[12] == check {
        Some(digits)
    } else {
        None
    }
}

// Writes thirteen digits as ASCII bytes.
// Stays: written by index, since a proof knows no element after a `zip` with `iter_mut`.
fn put_text(digits: &[u8; 13], text: &mut [u8])
    requires { Each Digit digits.now × (13 ≤ length text.old) }
    ensures { text.new ≡ sets text.old 0 (map (λ d. d + 48) digits.now) }
{
    for (i, d) in digits.iter().enumerate() {
        text[i] = d + b'0';
    }
}

// Read: a row to its thirteen digits: 33, 5.
pub fn read(row: &[u8], text: &mut [u8]) -> Answer
    ensures { Gave (read_ean13 (length text.old) row.now) (number_of result) (second_of result) text.old text.new }
{
    let digits = digits_of(row).ok_or(Refusal::Row(0))?;
    if text.len() < 13 {
        return Err(Refusal::Room(13));
    }
    put_text(&digits, text);
    Ok(13)
}
