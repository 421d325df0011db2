// The row record: a version byte, the count, and the cells of a row, eight to a byte. Version 1 has
// one byte for the count; version 2, for rows of more than 255 symbols, has two.
#![tactic(auto)]

ghost use Rattle.std.specs.Prelude.{◌+◌, ◌-◌, ◌*◌, ◌/◌, ◌<◌, ◌≤◌, ◌≡◌, length, take, drop};
ghost use Rattle.std.proofs.lemmas.List.Edits.{sets};
ghost use Rattle.helpers.specs.Answers.{Each, Gave};
ghost use Rattle.helpers.specs.Numbers.{number_of, second_of};
ghost use Rattle.helpers.specs.Terms.{answers};
ghost use Rattle.paper.specs.Jobs.{most, pack, unpack, bits, bytes, head, record_length, eight, unbytes, all_zero, version_of};
ghost use Rattle.record.specs.Tested.{declared, tested};

use helpers::{Answer, Refusal};

// The largest count of version 1, which has one byte for it.
const ONE_BYTE: usize = 255;

// The byte of at most eight cells, the first in the top bit: each weighs half of the one before it.
fn byte(cells: &[u8]) -> u8
    requires { Each (λ c. c ≤ 1) cells.now }
    ensures { result ≡ bits 128 cells.now }
{
    let mut sum = 0;
    let mut weight = 128;
    for cell in cells {
        sum += weight * *cell;
        weight /= 2;
    }
    sum
}

// The bytes of the head of a record of n symbols.
fn head_length(n: usize) -> usize
    ensures { result ≡ length (head n) }
{
    if n <= ONE_BYTE { 2 } else { 3 }
}

// The length of a record of n symbols.
fn record_length(n: usize) -> usize
    requires { n ≤ most }
    ensures { result ≡ record_length n }
{
    head_length(n) + (11 * n + 24).div_ceil(8)
}

// Writes the head of a record of n symbols: the version, and the count in one byte or in two, the
// high one first.
fn put_head(n: usize, out: &mut [u8])
    requires { n ≤ most }
    ensures { out.new ≡ sets out.old 0 (head n) }
{
    if n <= ONE_BYTE {
        helpers::join_slices(out, &[1, n as u8]);
    } else {
        let [high, low] = (n as u16).to_be_bytes();
        helpers::join_slices(out, &[2, high, low]);
    }
}

// Writes the bytes of a row: the full ones, and a last one where cells are left for it.
// Stays: one loop over `chunks(8)` takes 1.6 of plain Rust's time for a row of two symbols, where
// the bar is 1.5.
fn put_bytes(row: &[u8], out: &mut [u8])
    requires { ((length row.now + 7) / 8 ≤ length out.old) × Each (λ c. c ≤ 1) row.now }
    ensures { out.new ≡ sets out.old 0 (bytes ((length row.now + 7) / 8) row.now) }
{
    let eights = row.chunks_exact(8);
    let left = eights.remainder();
    for (k, cells) in eights.enumerate() {
        // Stays: by index, since after chunks_exact_mut or iter_mut().zip a proof knows no element.
        out[k] = byte(cells);
    }
    if !left.is_empty() {
        out[row.len() / 8] = byte(left);
    }
}

// Packs a row into a record: 10, 11, 5.
#[tactic(auto, using(crate::proofs::Counts::length_needed))]
pub fn pack(row: &[u8], out: &mut [u8]) -> Answer
    ensures { Gave (pack (length out.old) row.now) (number_of result) (second_of result) out.old out.new }
{
    let n = shapes::shape(row)?;
    let needed = record_length(n);
    if out.len() < needed {
        return Err(Refusal::Room(needed));
    }
    put_head(n, out);
    put_bytes(row, &mut out[head_length(n)..needed]);
    Ok(needed)
}

// The count of a record, if it has all arrived and is one that its version has: 1 to 255 in version
// 1, and 256 up to the limit in version 2.
#[tactic(auto, using(crate::proofs::Counts::counts))]
fn count(record: &[u8]) -> Option<usize>
    ensures { result ≡ declared «record».now }
{
    match record {
        [1, 0, ..] => None,
        [1, n, ..] => Some(usize::from(*n)),
        [2, high, low, ..] => {
            let n = usize::from(u16::from_be_bytes([*high, *low]));
            match n {
                256..=shapes::MOST => Some(n),
                _ => None,
            }
        }
        _ => None,
    }
}

// Whether the `spare` lowest bits of a byte are all 0.
#[tactic(auto, using(crate::proofs::Spares::spare_bits))]
fn spare_clear(last: u8, spare: usize) -> bool
    requires { spare < 8 }
    ensures { result ≡ all_zero (drop (8 - spare) (eight last)) }
{
    last % (1 << spare) == 0
}

// The tests of a record of version 1 or 2 after its version: 22, 23. A count is believed only of a
// record as long as it needs.
#[tactic(auto, using(crate::proofs::Counts::declared_within), unfolding(paper::specs::Jobs::most))]
fn test_count(record: &[u8]) -> Answer
    requires { (2 ≤ length «record».now) × (1 ≤ version_of «record».now) × (version_of «record».now ≤ 2) }
    ensures { answers result ≡ tested «record».now }
{
    let n = count(record).ok_or(Refusal::Count(0))?;
    let needed = record_length(n);
    if record.len() != needed {
        return Err(Refusal::Count(needed));
    }
    let cells = 11 * n + 24;
    let last = needed - 1;
    if !spare_clear(record[last], 8 * cells.div_ceil(8) - cells) {
        return Err(Refusal::Spare(last));
    }
    Ok(cells)
}

// The tests of a record: 20, 21, 22, 23. A record that passes is accepted with its number of cells.
// Stays: an enum would be made of this byte and turned back to it; the papers say 1 and 2.
fn test(record: &[u8]) -> Answer
    ensures { answers result ≡ tested «record».now }
{
    let [version, _, ..] = *record else {
        return Err(Refusal::Short(record.len()));
    };
    match version {
        1..=2 => test_count(record),
        _ => Err(Refusal::Version(usize::from(version))),
    }
}

// Writes the cells of a byte, the first from its top bit, until the part is full.
fn spread(part: &mut [u8], byte: u8)
    requires { length part.old ≤ 8 }
    ensures { part.new ≡ sets part.old 0 (eight byte) }
{
    let mut rest = byte;
    for cell in part.iter_mut() {
        *cell = rest / 128;
        rest = rest % 128 * 2;
    }
}

// Fills `out` with the first cells of some bytes: those of the full bytes, and what is left of the
// last.
// Stays: one loop over parts of up to eight takes 1.7 of plain Rust's time, where the bar is 1.5.
fn put_cells(bytes: &[u8], out: &mut [u8])
    requires { length out.old ≤ 8 * length bytes.now }
    ensures { out.new ≡ take (length out.old) (unbytes bytes.now) }
{
    let len = out.len();
    let full = len / 8;
    for (k, byte) in bytes[..full].iter().enumerate() {
        let at = 8 * k;
        // Stays: by index, since after chunks_exact_mut or iter_mut().zip a proof knows no element.
        spread(&mut out[at..at + 8], *byte);
    }
    if 8 * full < len {
        spread(&mut out[8 * full..], bytes[full]);
    }
}

// Unpacks a record into the cells of a row: 20, 21, 22, 23, 5.
pub fn unpack(record: &[u8], out: &mut [u8]) -> Answer
    ensures { Gave (unpack (length out.old) «record».now) (number_of result) (second_of result) out.old out.new }
{
    let cells = test(record)?;
    if out.len() < cells {
        return Err(Refusal::Room(cells));
    }
    let start = record.len() - cells.div_ceil(8);
    put_cells(&record[start..], &mut out[..cells]);
    Ok(cells)
}
