// Code 128 after `src/sym/code128.rs` of barcoders 2.0.0: the patterns, the check, draw and encode.
#![tactic(auto)]

ghost use Rattle.std.specs.Prelude.{◌≡◌, ◌+◌, ◌*◌, ◌<◌, ◌≤◌, min, length, take};
ghost use Rattle.std.proofs.lemmas.List.Edits.{sets};
ghost use Rattle.helpers.specs.Answers.{Each, accept, into, Gave};
ghost use Rattle.paper.specs.Iso15417.{pattern, check, cells, row};
ghost use Rattle.paper.specs.Jobs.{most, SymbolList, encode, draw};
ghost use Rattle.helpers.specs.Numbers.{number_of, second_of};
ghost use Rattle.code128.specs.Listed.{Listed};
ghost use Rattle.paper.proofs.Cells.{Number};

use helpers::{Answer, Refusal};
use tokens::parse::Unparsed;

pub mod chars;

// Stop sequence.
pub const STOP: [u8; 11] = [1, 1, 0, 0, 0, 1, 1, 1, 0, 1, 0];

// Termination sequence.
pub const TERM: [u8; 2] = [1, 1];

// The check of the first 4,000 numbers: a symbol list has no more. The START weighs 1, and the
// number at place i weighs i.
pub fn checksum_value(symbols: &[u8]) -> u8
    ensures { result ≡ check (take most symbols.now) }
{
    let n = symbols.len().min(shapes::MOST);
    let Some((start, data)) = symbols[..n].split_first() else {
        return 0;
    };
    let mut sum = u32::from(*start);
    for (weight, m) in (1..).zip(data) {
        sum += weight * u32::from(*m);
    }
    (sum % 103) as u8
}

// Writes the pattern of the number m into `part`: four, four and three cells at once, which are the
// bytes of a number of QUADS. Both tables are read in place.
fn spread(part: &mut [u8], m: u8)
    requires { (length part.old ≡ 11) × (m < 106) }
    ensures { part.new ≡ pattern m }
{
    let word = usize::from(chars::word_table()[usize::from(m)]);
    part[..4].copy_from_slice(&chars::QUADS[word / 128 % 16].to_le_bytes());
    part[4..8].copy_from_slice(&chars::QUADS[word / 8 % 16].to_le_bytes());
    part[8..11].copy_from_slice(&chars::QUADS[word % 8 * 2].to_le_bytes()[..3]);
}

// Writes the patterns of `symbols` into the front of `out`, one after the other.
// Stays: it cuts by index, since after chunks_exact_mut a proof knows no element of the buffer.
fn join_iters(out: &mut [u8], symbols: &[u8])
    requires { Each Number symbols.now × (11 * length symbols.now ≤ length out.old) }
    ensures { out.new ≡ sets out.old 0 (cells symbols.now) }
{
    for (i, m) in symbols.iter().enumerate() {
        let at = 11 * i;
        spread(&mut out[at..at + 11], *m);
    }
}

// The row of a symbol list, where there is room: the payload, the check, the stop.
#[tactic(auto, unfolding(paper::specs::Jobs::most))]
fn write_row(symbols: &[u8], out: &mut [u8]) -> Answer
    requires { SymbolList symbols.now }
    ensures { Gave (into (length out.old) (accept (length symbols.now) (row symbols.now))) (number_of result) (second_of result) out.old out.new }
{
    let n = symbols.len();
    let payload = 11 * n;
    let end = payload + 24;
    if out.len() < end {
        return Err(Refusal::Room(end));
    }
    let stop = payload + 11;
    let term = payload + 22;
    join_iters(out, symbols);
    spread(&mut out[payload..stop], checksum_value(symbols));
    out[stop..term].copy_from_slice(&STOP);
    out[term..end].copy_from_slice(&TERM);
    Ok(n)
}

// Draw: a symbol list to a row.
pub fn draw(symbols: &[u8], out: &mut [u8]) -> Answer
    ensures { Gave (draw (length out.old) symbols.now) (number_of result) (second_of result) out.old out.new }
{
    shapes::vet(symbols)?;
    write_row(symbols, out)
}

// The symbols of a text at the front of a list: all tests of encode but that of the room, 1, 2, 3,
// 19, 4. The list has room for as many symbols as there are code points, or as the limit allows.
// What parses to its end has passed 1 and 2: each code point with a number is a scalar value, and a
// START has two bytes.
fn list_symbols(text: &[u32], list: &mut [u8]) -> Answer
    requires { min (length text.now) most ≤ length list.old }
    ensures { Listed text.now result list.new }
{
    match tokens::parse::parse(text, list) {
        Err(Unparsed::Stops(place)) => Err(tokens::stopped(text, place)),
        Err(Unparsed::Retired(place)) => Err(Refusal::Retired(place)),
        Ok(n) if shapes::MOST < n => Err(Refusal::Symbols(n)),
        Ok(n) => Ok(n),
    }
}

// Encode by way of a list of N symbols.
#[tactic(auto, unfolding(paper::specs::Jobs::most))]
fn encode_by<const N: usize>(text: &[u32], out: &mut [u8]) -> Answer
    requires { (min (length text.now) most ≤ N) × (N ≤ most) }
    ensures { Gave (encode (length out.old) text.now) (number_of result) (second_of result) out.old out.new }
{
    let mut list = [0u8; N];
    let n = list_symbols(text, &mut list)?;
    write_row(&list[..n], out)
}

// Encode: code points to a row. Refusals 1, 2, 3, 19, 4, 5. A list is cleared before it is used, so
// a short text takes a short one: 255 symbols of set C are 509 code points.
#[tactic(auto, unfolding(paper::specs::Jobs::most))]
pub fn encode(text: &[u32], out: &mut [u8]) -> Answer
    ensures { Gave (encode (length out.old) text.now) (number_of result) (second_of result) out.old out.new }
{
    match text.len() {
        0..=128 => encode_by::<128>(text, out),
        129..=512 => encode_by::<512>(text, out),
        _ => encode_by::<{ shapes::MOST }>(text, out),
    }
}
