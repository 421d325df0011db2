// Tokenizing, after the crate's `parse`: code points to symbols.
ghost use Rattle.std.specs.Prelude.{◌-◌, ◌<◌, ◌≡◌, true, false, MatchOption, set};
ghost use Rattle.std.proofs.lemmas.List.Edits.{sets};
ghost use Rattle.paper.specs.Crate.{spans, number_in, free, held, digit, pairs, listed, step, finished};
ghost use Rattle.paper.proofs.Moves.{Sound};
ghost use Rattle.tokens.specs.Sets.{set_of};
ghost use Rattle.tokens.specs.Tokens.{state_of, Does, stored, Tokens};

use crate::{CharacterSet, Lookup};

// The parser between two code points: free in a set, or in set C with the value of the digit that
// it holds.
#[derive(Clone, Copy)]
enum State {
    Free(CharacterSet),
    Held(u8),
}

// What one code point does: parsing stops at it, it is held, or a symbol is written and leaves a
// state. ź is set apart: its symbol is FNC2, which leaves the state as it is.
// Stays: four cases, the paper's step and ź; an Option of the last three would only wrap them.
#[derive(Clone, Copy)]
enum Token {
    Halt,
    Hold(u8),
    Write(u8, State),
    Retired,
}

// Why a text gives no symbols: the place where parsing stops, or else the place of the first ź.
#[derive(Clone, Copy)]
pub enum Unparsed {
    Stops(usize),
    Retired(usize),
}

// The value of an ASCII digit.
// Stays: the library's tests are of a char or of a byte, and a code point need be neither.
#[tactic(auto, unfolding(paper::specs::Crate::digit))]
fn digit(c: u32) -> Option<u8>
    ensures { MatchOption result (digit c ≡ false) (λ d. (digit c ≡ true) × (d ≡ c - 48) × (d < 10)) }
{
    match c {
        48..=57 => Some((c - 48) as u8),
        _ => None,
    }
}

// Do digits go by pairs? In set C alone.
#[tactic(auto, unfolding(crate::specs::Sets::set_of, paper::specs::Crate::pairs))]
fn has_pairs(set: CharacterSet) -> bool
    ensures { result ≡ pairs (set_of set) }
{
    matches!(set, CharacterSet::C)
}

// A code point that has a number in the set, which may switch the set.
fn unit(set: CharacterSet, c: u32) -> Token
    ensures { Does (listed (set_of set) (number_in (spans (set_of set)) c)) (free (set_of set)) c result }
{
    match set.lookup(c) {
        Lookup::Unit(m) => Token::Write(m, State::Free(set.next(m))),
        Lookup::Retired => Token::Retired,
        Lookup::Nothing => Token::Halt,
    }
}

// A code point where no digit is held: the first digit of a pair, or one that has a number. The set
// comes first, so that a code point of sets A and B is not asked for a digit.
#[tactic(auto, using(crate::proofs::Lookups::not_fnc2_other), unfolding(crate::specs::Tokens::Does, paper::specs::Crate::step))]
fn step_free(set: CharacterSet, c: u32) -> Token
    ensures { Does (step (free (set_of set)) c) (free (set_of set)) c result }
{
    if has_pairs(set) {
        match digit(c) {
            Some(d) => Token::Hold(d),
            None => unit(set, c),
        }
    } else {
        unit(set, c)
    }
}

// A code point where the digit `d` is held: the pair's second digit, or Ź, across which the digit
// stays held.
#[tactic(auto, using(crate::proofs::Lookups::not_fnc2_other), unfolding(crate::specs::Sets::set_of, crate::specs::Tokens::state_of, crate::specs::Tokens::Does, paper::specs::Crate::step))]
fn step_held(d: u8, c: u32) -> Token
    requires { d < 10 }
    ensures { Does (step (held d) c) (held d) c result }
{
    match digit(c) {
        Some(second) => Token::Write(10 * d + second, State::Free(CharacterSet::C)),
        None if c == 0x179 => Token::Write(102, State::Held(d)),
        None => Token::Halt,
    }
}

// One code point.
#[tactic(auto, unfolding(crate::specs::Tokens::state_of))]
fn step(state: State, c: u32) -> Token
    requires { Sound (state_of state) }
    ensures { Does (step (state_of state) c) (state_of state) c result }
{
    match state {
        State::Free(set) => step_free(set, c),
        State::Held(d) => step_held(d, c),
    }
}

// May the input end here? Not before the START, nor where a digit is held.
#[tactic(auto, unfolding(crate::specs::Sets::set_of, crate::specs::Tokens::state_of, paper::specs::Crate::finished))]
fn is_finished(state: State) -> bool
    ensures { result ≡ finished (state_of state) }
{
    !matches!(state, State::Free(CharacterSet::None) | State::Held(_))
}

// Stores a symbol at place `n`, where the list has that place.
fn push(list: &mut [u8], n: usize, m: u8)
    ensures { list.new ≡ set list.old n m }
{
    // Stays: the contract of `get_mut` does not say what the slice has after a write.
    if n < list.len() {
        list[n] = m;
    }
}

// The symbols of a text, stored as far as the list reaches and counted to the end. Where parsing
// stops, that place is returned instead, and else, if the text has a ź, the place of the first. The
// list then has the symbols of the other code points, up to that stop or to the end: ź is neither
// stored nor counted.
pub fn parse(text: &[u32], list: &mut [u8]) -> Result<usize, Unparsed>
    ensures tokens { Tokens result text.now list.old list.new }
    ensures stored { list.new ≡ sets list.old 0 (stored text.now) }
{
    let mut state = State::Free(CharacterSet::None);
    let mut n = 0;
    let mut retired = None; // the place of the first ź
    for (i, c) in text.iter().enumerate() {
        match step(state, *c) {
            Token::Halt => return Err(Unparsed::Stops(i)),
            Token::Hold(d) => state = State::Held(d),
            Token::Write(m, next) => {
                push(list, n, m);
                n += 1;
                state = next;
            }
            Token::Retired => retired = retired.or(Some(i)),
        }
    }
    if !is_finished(state) {
        return Err(Unparsed::Stops(text.len()));
    }
    match retired {
        Some(place) => Err(Unparsed::Retired(place)),
        None => Ok(n),
    }
}
