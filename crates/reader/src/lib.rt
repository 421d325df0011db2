// Read: a row of cells back to the symbol list that it was drawn from. A block that is no pattern
// is answered as worn or as unknown.
#![tactic(auto)]

ghost use Rattle.std.specs.Prelude.{◌+◌, ◌*◌, ◌<◌, ◌≤◌, min, ◌≡◌, length};
ghost use Rattle.helpers.specs.Answers.{Each, Gave};
ghost use Rattle.paper.specs.Iso15417.{found};
ghost use Rattle.paper.specs.Jobs as Paper;
ghost use Rattle.paper.specs.Jobs.{most, row_length, fits_at, blocks_from};
ghost use Rattle.helpers.specs.Numbers.{number_of, second_of};
ghost use Rattle.reader.specs.Parts.{word_of, found_as, walk_of, tested, stop_asked, check_asked, Judged};

use helpers::{Answer, Refusal};

// The cells of a block as one word, the first cell in the top bit, so that its ones are the bar
// cells.
// Stays: that cells are 0 or 1; a type for it would be made anew for each block that is cut.
fn word(cells: &[u8]) -> u16
    requires { (length cells.now ≡ 11) × Each (λ c. c ≤ 1) cells.now }
    ensures { result ≡ word_of 0 cells.now }
{
    let mut w = 0;
    for cell in cells {
        w = w * 2 + u16::from(*cell);
    }
    w
}

// Looks up block `b` in the table of patterns, pattern by pattern and cell by cell, a word's cells
// being its bits. Every pattern begins with a bar, so the first cell is asked once, before the
// search: where it is a space, no pattern is searched. If the cells are none of the 106, the count
// of ones of their word decides between worn, 16, and unknown, 12.
// Stays: docs/SCOPE.md names the form: two loops, one left by label, the symbol what `break` gives.
fn find(cells: &[u8], b: usize) -> Result<u8, Refusal>
    requires { (length cells.now ≡ 11) × Each (λ c. c ≤ 1) cells.now }
    ensures { result ≡ found_as b (found cells.now) }
{
    let block = word(cells);
    'search: {
        if cells[0] == 1 {
            'patterns: for (s, &pattern) in code128::chars::word_table().iter().enumerate() {
                for j in 1..11u16 {
                    if (block >> (10 - j)) % 2 != (pattern >> (10 - j)) % 2 {
                        continue 'patterns;
                    }
                }
                break 'search Ok(s as u8);
            }
        }
        if block.count_ones() % 2 == 1 {
            Err(Refusal::Worn(b))
        } else {
            Err(Refusal::Pattern(b))
        }
    }
}

// Whether number `m` may stand at block `b`: a START at block 0, data and the check after it.
#[tactic(auto, unfolding(paper::specs::Jobs::fits_at, paper::specs::Jobs::is_start, paper::specs::Jobs::is_data))]
fn fits(b: usize, m: u8) -> bool
    ensures { result ≡ fits_at b m }
{
    if b == 0 {
        matches!(m, 103..=105)
    } else {
        m <= 102
    }
}

// Looks up the first blocks of the row, as many as the list is long, each once, and stores their
// numbers; refuses 12, 16 or 13 at the first wrong one.
fn blocks(row: &[u8], list: &mut [u8]) -> Result<(), Refusal>
    requires { (11 * length list.old ≤ length row.now) × Each (λ c. c ≤ 1) row.now }
    ensures { walk_of result list.new ≡ blocks_from (length list.old) 0 row.now }
{
    for (b, slot) in list.iter_mut().enumerate() {
        // Stays: the cut by index; `as_chunks` cuts the stop too, and `cells[b]` is by index still.
        let m = find(&row[11 * b..11 * b + 11], b)?;
        if !fits(b, m) {
            return Err(Refusal::Place(b));
        }
        *slot = m;
    }
    Ok(())
}

// Holds the last 13 cells against the stop, the cells of `STOP` and of `TERM`: the row's length
// says where it stands. Refuses 15 at the first wrong cell.
fn stops(row: &[u8]) -> Result<(), Refusal>
    requires { 13 ≤ length row.now }
    ensures { tested result ≡ stop_asked row.now }
{
    let at = row.len() - 13;
    let stop = code128::STOP.iter().chain(&code128::TERM);
    match row[at..].iter().zip(stop).position(|(x, y)| x != y) {
        Some(j) => Err(Refusal::Stop(at + j)),
        None => Ok(()),
    }
}

// Holds a number against the check of the symbols before it; refuses 14 with the right one.
fn checks(symbols: &[u8], drawn: u8) -> Result<(), Refusal>
    requires { length symbols.now ≤ most }
    ensures { tested result ≡ check_asked symbols.now drawn }
{
    let right = code128::checksum_value(symbols);
    if drawn == right {
        Ok(())
    } else {
        Err(Refusal::Check(usize::from(right)))
    }
}

// All tests of read but that of the room, in their order: 10, 11, 12 or 16 and 13, 15, 14. Answers
// the symbols. They go to the front of `list`, which has room for the blocks of the row, or of the
// longest.
fn judge<'a>(row: &[u8], list: &'a mut [u8]) -> Result<&'a [u8], Refusal>
    requires { min (length row.now) (row_length most) ≤ 11 * length list.old + 13 }
    ensures { Judged row.now result }
{
    let n = shapes::shape(row)?;
    let numbers = &mut list[..n + 1];
    blocks(row, numbers)?;
    stops(row)?;
    let drawn = numbers[n];
    let symbols = &numbers[..n];
    checks(symbols, drawn)?;
    Ok(symbols)
}

// Reads by way of a list that has room for the blocks. The symbols go to the front of `out` once
// all tests have passed.
fn read_by(row: &[u8], list: &mut [u8], out: &mut [u8]) -> Answer
    requires { min (length row.now) (row_length most) ≤ 11 * length list.old + 13 }
    ensures { Gave (Paper.read (length out.old) row.now) (number_of result) (second_of result) out.old out.new }
{
    let symbols = judge(row, list)?;
    let n = symbols.len();
    if out.len() < n {
        return Err(Refusal::Room(n));
    }
    // Stays: `copy_from_slice` calls `memmove`; tests/c holds the library to `memset` alone.
    for (i, m) in symbols.iter().enumerate() {
        out[i] = *m;
    }
    Ok(n)
}

// Read: a row to its symbol list. The list is cleared before it is used, so a row of up to 255
// symbols, or 256 blocks and the stop, takes a short one.
#[tactic(auto, unfolding(paper::specs::Jobs::most, paper::specs::Jobs::row_length))]
pub fn read(row: &[u8], out: &mut [u8]) -> Answer
    ensures { Gave (Paper.read (length out.old) row.now) (number_of result) (second_of result) out.old out.new }
{
    // Stays: a const parameter is no plainer, also two calls; it took 848 bytes more.
    if row.len() <= 11 * 256 + 13 {
        read_by(row, &mut [0; 256], out)
    } else {
        read_by(row, &mut [0; shapes::MOST + 1], out)
    }
}
