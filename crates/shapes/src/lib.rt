// What a symbol list and a row look like: the tests that jobs of Code 128 begin with, 10 and 13 of
// a list, 10 and 11 of a row.
#![tactic(auto)]

ghost use Rattle.std.specs.Prelude.{◌≤◌, ◌≡◌, nat_lt, length, position};
ghost use Rattle.helpers.specs.Terms.{answers};
ghost use Rattle.paper.specs.Jobs as Paper;
ghost use Rattle.shapes.specs.Vetted.{vetted, shaped};

use helpers::{Answer, Refusal};

// The limit: no symbol list is longer.
pub const MOST: usize = 4000;

// No row has more cells.
pub const MOST_CELLS: usize = 11 * (MOST + 1) + 13;

// The first place of `list` whose number is above `most`.
fn first_above(list: &[u8], most: u8) -> Option<usize>
    ensures { result ≡ position (λ x. nat_lt most x) list.now }
{
    list.iter().position(|x| most < *x)
}

// The tests of a symbol list that draw, spell and scan begin with: 10, 13.
pub fn vet(symbols: &[u8]) -> Answer
    ensures { answers result ≡ vetted symbols.now }
{
    match symbols.len() {
        1..=MOST => vet_places(symbols),
        n => Err(Refusal::Size(n)),
    }
}

// Test 13: a START at place 0, and numbers up to 102 after it.
fn vet_places(symbols: &[u8]) -> Answer
    requires { (1 ≤ length symbols.now) × (length symbols.now ≤ Paper.most) }
    ensures { answers result ≡ vetted symbols.now }
{
    match symbols[0] {
        103..=105 => {
            if let Some(k) = first_above(&symbols[1..], 102) {
                return Err(Refusal::Place(1 + k));
            }
            Ok(symbols.len())
        }
        _ => Err(Refusal::Place(0)),
    }
}

// The tests of a row that read and pack begin with: 10, 11. A row is accepted with its number of
// symbols.
pub fn shape(row: &[u8]) -> Answer
    ensures { answers result ≡ shaped row.now }
{
    let len = row.len();
    match len {
        35..=MOST_CELLS => {
            let n = (len - 24) / 11;
            if len != 11 * n + 24 {
                return Err(Refusal::Size(len));
            }
            if let Some(at) = first_above(row, 1) {
                return Err(Refusal::Cell(at));
            }
            Ok(n)
        }
        _ => Err(Refusal::Size(len)),
    }
}
