// The character sets and the parser, after `CharacterSet` and `parse` of `src/sym/code128.rs` of
// barcoders 2.0.0: code points to symbols.
#![tactic(auto)]

ghost use Rattle.std.specs.Prelude.{◌≡◌};
ghost use Rattle.helpers.specs.Terms.{answers};
ghost use Rattle.paper.specs.Iso15417.{next, start_of};
ghost use Rattle.paper.specs.Crate.{spans, number_in};
ghost use Rattle.tokens.specs.Sets.{set_of, named, start_in, lookup_of};
ghost use Rattle.tokens.specs.Stopped.{stopped_at};

use helpers::Refusal;

mod numbers;
pub mod parse;
mod unicode;

// The three character sets, and `None` before the START.
// Stays: the crate's type has the case `None`; in an Option there would be a second one beside it.
#[derive(Clone, Copy)]
pub enum CharacterSet {
    A,
    B,
    C,
    None,
}

// What a code point is in a set: a symbol's number; FNC2, which is retired and whose number is 97;
// or nothing.
// Stays: three cases; an Option of the first two would wrap every arm of the sets twice.
#[derive(Clone, Copy)]
pub enum Lookup {
    Unit(u8),
    Retired,
    Nothing,
}

impl CharacterSet {
    // The STARTs of the sets.
    pub const START_A: u8 = 103;

    pub const START_B: u8 = 104;

    pub const START_C: u8 = 105;

    // The set that a code point names: À, Ɓ or Ć.
    #[tactic(auto, unfolding(crate::specs::Sets::set_of, crate::specs::Sets::named))]
    pub fn from_char(c: u32) -> CharacterSet
        ensures { set_of result ≡ named c }
    {
        match c {
            0xC0 => CharacterSet::A,
            0x181 => CharacterSet::B,
            0x106 => CharacterSet::C,
            _ => CharacterSet::None,
        }
    }

    // The number of the set's START, 0 for `None`.
    // Stays: public, and its contract gives 0 for `None`; the code itself asks `start`.
    #[tactic(auto, using(crate::proofs::Lookups::start_or_zero))]
    pub fn index(self) -> u8
        ensures { result ≡ start_of (set_of self) }
    {
        self.start().unwrap_or(0)
    }

    // The number of the set's START; `None` has none.
    #[tactic(auto, unfolding(crate::specs::Sets::set_of, crate::specs::Sets::start_in, paper::specs::Iso15417::start_of))]
    pub(crate) fn start(self) -> Option<u8>
        ensures { result ≡ start_in (set_of self) }
    {
        match self {
            CharacterSet::A => Some(Self::START_A),
            CharacterSet::B => Some(Self::START_B),
            CharacterSet::C => Some(Self::START_C),
            CharacterSet::None => None,
        }
    }

    // The number of a code point in the set; before the START only the three names of the sets have
    // one.
    #[tactic(auto, unfolding(crate::specs::Sets::set_of))]
    pub fn lookup(self, c: u32) -> Lookup
        ensures { result ≡ lookup_of (number_in (spans (set_of self)) c) }
    {
        match self {
            CharacterSet::A => numbers::in_a(c),
            CharacterSet::B => numbers::in_b(c),
            CharacterSet::C => numbers::in_c(c),
            CharacterSet::None => numbers::in_none(c),
        }
    }

    // The set after a symbol: the STARTs, and the switches Code C 99, Code B 100, Code A 101. In
    // set C 99 is a pair. Nothing below 99 switches: that comes first, because most symbols are
    // below 99.
    #[tactic(auto, using(paper::proofs::Codes::next_low), unfolding(crate::specs::Sets::set_of, paper::specs::Iso15417::next))]
    pub fn next(self, m: u8) -> CharacterSet
        ensures { set_of result ≡ next (set_of self) m }
    {
        match (self, m) {
            (_, ..99) => self,
            (CharacterSet::A | CharacterSet::B, 99) | (CharacterSet::None, Self::START_C) =>
                CharacterSet::C,
            (CharacterSet::A | CharacterSet::C, 100) | (CharacterSet::None, Self::START_B) =>
                CharacterSet::B,
            (CharacterSet::B | CharacterSet::C, 101) | (CharacterSet::None, Self::START_A) =>
                CharacterSet::A,
            _ => self,
        }
    }
}

// What encode answers where parsing stops: 1 and 2, each asked over the whole input, and else 3 at
// that place.
#[tactic(auto, using(crate::proofs::Stopping::stopped_scalar, crate::proofs::Stopping::stopped_bytes, crate::proofs::Stopping::stopped_there), unfolding(helpers::specs::Terms::answers, helpers::specs::Numbers::refusal_number))]
pub fn stopped(text: &[u32], place: usize) -> Refusal
    ensures { answers (Err result) ≡ stopped_at text.now place }
{
    match unicode::first_no_scalar(text) {
        Some(at) => Refusal::Scalar(at),
        None if unicode::has_two_bytes(text) => Refusal::Character(place),
        None => Refusal::Length(0),
    }
}
