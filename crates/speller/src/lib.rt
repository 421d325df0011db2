// A symbol list written out: as the code points that spell it, or as the bytes that a scanner sends
// for it.
#![tactic(auto)]

ghost use Rattle.std.specs.Prelude.{ℕ, List, ◌+◌, ◌≤◌, ◌≡◌, length, refl, option_to_list, OnErr, OnOk};
ghost use Rattle.std.proofs.lemmas.List.Edits.{sets};
ghost use Rattle.helpers.specs.Answers.{Gave};
ghost use Rattle.helpers.specs.Numbers.{number_of, second_of};
ghost use Rattle.helpers.specs.Terms.{answers};
ghost use Rattle.paper.specs.Iso15417.{Set, next, sent, other};
ghost use Rattle.paper.specs.Crate.{letters};
ghost use Rattle.paper.specs.Jobs.{spell, scan};
ghost use Rattle.tokens.specs.Sets.{set_of};
ghost use Rattle.speller.specs.Walked.{said_of, own_of, text_after, output, fitted};
ghost use Rattle.speller.specs.Laws.{sent_length};

use helpers::{Answer, Refusal};
use tokens::CharacterSet;

// What one number of a symbol list gives: at most two elements.
// Stays: an array of two with a length beside it has room for a length of 3.
#[derive(Clone, Copy)]
enum Said<T> {
    Nothing,
    One(T),
    Two(T, T),
}

impl<T: Copy> Said<T> {
    // The number of its elements.
    #[tactic(auto, unfolding(crate::specs::Walked::said_of))]
    fn count(self) -> usize
        ensures { result ≡ length (said_of self) }
    {
        match self {
            Said::Nothing => 0,
            Said::One(_) => 1,
            Said::Two(_, _) => 2,
        }
    }
}

// The bytes as code points.
impl From<Said<u8>> for Said<u32> {
    ghost from_gives = { λ x r. r ≡ x };

    fn from(said: Said<u8>) -> Said<u32> {
        match said {
            Said::Nothing => Said::Nothing,
            Said::One(c) => Said::One(u32::from(c)),
            Said::Two(a, b) => Said::Two(u32::from(a), u32::from(b)),
        }
    }
}

// The set after a number. Nothing below 99 switches, and most numbers are asked that alone.
#[tactic(auto, using(paper::proofs::Codes::next_low))]
fn set_after(set: CharacterSet, m: u8) -> CharacterSet
    ensures { set_of result ≡ next (set_of set) m }
{
    if m < 99 { set } else { set.next(m) }
}

// Where a number stands: the set that the numbers before it have led to, and the set that text, a
// number below 96, is read in: right after a Shift the other of A and B, and else the same.
#[derive(Clone, Copy)]
struct Place {
    set: CharacterSet,
    text: CharacterSet,
}

impl Place {
    // A place in a set, right after no Shift.
    fn in_set(set: CharacterSet) -> Place
        ensures { (result.set ≡ set) × (result.text ≡ set) }
    {
        Place { set, text: set }
    }

    // The place after the number m. Shift is 98 in set A or B, and moves no set. In set C 98 is a
    // pair; it needs no look at the set, because `other` leaves C as it is.
    #[tactic(auto, using(paper::proofs::Codes::next_low), unfolding(crate::specs::Walked::text_after))]
    fn after(self, m: u8) -> Place
        ensures set { set_of result.set ≡ next (set_of self.set) m }
        ensures text { set_of result.text ≡ text_after (set_of self.set) m }
    {
        match m {
            98 => Place {
                set: self.set,
                text: other(self.set),
            },
            _ => Place::in_set(set_after(self.set, m)),
        }
    }
}

// Of sets A and B the other one; any other stays.
#[tactic(auto, unfolding(tokens::specs::Sets::set_of, paper::specs::Iso15417::other))]
fn other(set: CharacterSet) -> CharacterSet
    ensures { set_of result ≡ other (set_of set) }
{
    match set {
        CharacterSet::A => CharacterSet::B,
        CharacterSet::B => CharacterSet::A,
        same => same,
    }
}

// The bytes that a scanner sends for a number: one character in set A or B, two digits in set C;
// nothing for a START, a switch, Shift or a function symbol.
#[tactic(auto, unfolding(crate::specs::Walked::said_of, tokens::specs::Sets::set_of, paper::specs::Iso15417::sent, paper::specs::Iso15417::digits))]
fn sent(set: CharacterSet, m: u8) -> Said<u8>
    ensures { said_of result ≡ sent (set_of set) m }
{
    match (set, m) {
        (CharacterSet::A, 0..=63) | (CharacterSet::B, 0..=95) => Said::One(m + 32), // 95 is DEL
        (CharacterSet::A, 64..=95) => Said::One(m - 64),
        (CharacterSet::C, 0..=99) => Said::Two(b'0' + m / 10, b'0' + m % 10),
        _ => Said::Nothing,
    }
}

// A number's own letter: the crate has one for each number for which a scanner sends nothing, and ÷
// for DEL.
#[tactic(auto, unfolding(crate::specs::Walked::own_of, crate::specs::Walked::runs_of, tokens::specs::Sets::set_of, paper::specs::Crate::spans, paper::specs::Crate::in_both, paper::specs::Crate::as_list, paper::specs::Crate::point_in))]
fn own(set: CharacterSet, m: u8) -> Option<u32>
    ensures { option_to_list result ≡ own_of (set_of set) m }
{
    match (set, m) {
        (CharacterSet::B, 95) => Some(0xF7), // ÷
        (CharacterSet::A | CharacterSet::B, 96) => Some(0x17B), // Ż
        (CharacterSet::A | CharacterSet::B, 97) => Some(0x17A), // ź
        (CharacterSet::A | CharacterSet::B, 98) => Some(0x17D), // Ž
        (CharacterSet::A | CharacterSet::B, 99) | (CharacterSet::None, 105) => Some(0x106), // Ć
        (CharacterSet::A | CharacterSet::C, 100) | (CharacterSet::None, 104) => Some(0x181), // Ɓ
        (CharacterSet::B | CharacterSet::C, 101) | (CharacterSet::None, 103) => Some(0xC0), // À
        (CharacterSet::A, 101) | (CharacterSet::B, 100) => Some(0x17C), // ż
        (CharacterSet::A | CharacterSet::B | CharacterSet::C, 102) => Some(0x179), // Ź
        _ => None,
    }
}

// The code points of a number: its own letter, or else what a scanner sends for it.
#[tactic(auto, using(crate::proofs::Says::own_or_sent), unfolding(crate::specs::Walked::said_of))]
#[inline(always)]
fn letters(set: CharacterSet, m: u8) -> Said<u32>
    ensures { said_of result ≡ letters (set_of set) m }
{
    match own(set, m) {
        Some(letter) => Said::One(letter),
        None => Said::from(sent(set, m)),
    }
}

// What is written for a symbol list: code points, by spell, or bytes, by scan. The type of the lent
// buffer says which, so that one loop serves both jobs.
trait Element: Copy {
    ghost says: { Set → Set → ℕ → List Self };

    // What a number gives at its place.
    fn say(place: Place, m: u8) -> Said<Self>
        ensures { said_of result ≡ says (set_of place.set) (set_of place.text) m };

    // Shift changes which elements are written and never how many.
    ghost as_many: { (s : Set) (m : ℕ) → length (says s (other s) m) ≡ length (says s s m) };
}

// Spell has a letter for Shift too, and reads each number in its set.
impl Element for u32 {
    ghost says = { λ s t m. letters s m };

    ghost as_many = { λ s m. refl };

    #[inline(always)]
    fn say(place: Place, m: u8) -> Said<u32> {
        letters(place.set, m)
    }
}

// Scan reads all numbers in the set of text: from 96 on A and B both give nothing.
impl Element for u8 {
    ghost says = { λ s t m. sent t m };

    ghost as_many = { sent_length };

    fn say(place: Place, m: u8) -> Said<u8> {
        sent(place.text, m)
    }
}

// The number of elements that a symbol list gives. It is counted before anything is written,
// because refusal 5 answers with it and must leave the buffer as it was. Shift is not looked at
// here: it changes what is written and never how much.
fn needed<T: Element>(symbols: &[u8]) -> usize
    ensures { result ≡ length (output T.says symbols.now) }
{
    let mut set = CharacterSet::None;
    let mut n = 0;
    for &m in symbols {
        n += T::say(Place::in_set(set), m).count();
        set = set_after(set, m);
    }
    n
}

// The tests of both jobs in their order, 10, 13, 5. Accepts with the number of elements, and writes
// nothing.
fn fit<T: Element>(symbols: &[u8], room: usize) -> Answer
    ensures { answers result ≡ fitted (length (output T.says symbols.now)) room symbols.now }
{
    shapes::vet(symbols)?;
    let n = needed::<T>(symbols);
    if n <= room {
        Ok(n)
    } else {
        Err(Refusal::Room(n))
    }
}

// Writes what one number gives from place `at` on, and returns the place after it.
// Stays: with a part of `out` in place of `at`, `write` cuts a new part for each number.
#[tactic(auto, unfolding(crate::specs::Walked::said_of))]
fn put<T: Copy>(out: &mut [T], at: usize, said: Said<T>) -> usize
    requires { at + length (said_of said) ≤ length out.old }
    ensures stored { out.new ≡ sets out.old at (said_of said) }
    ensures next { result ≡ at + length (said_of said) }
{
    match said {
        Said::Nothing => at,
        Said::One(c) => {
            out[at] = c;
            at + 1
        }
        Said::Two(a, b) => {
            out[at] = a;
            out[at + 1] = b;
            at + 2
        }
    }
}

// Writes what a symbol list gives into the front of `out`.
fn write<T: Element>(symbols: &[u8], out: &mut [T])
    requires { length (output T.says symbols.now) ≤ length out.old }
    ensures { out.new ≡ sets out.old 0 (output T.says symbols.now) }
{
    let mut place = Place::in_set(CharacterSet::None);
    let mut at = 0;
    for &m in symbols {
        at = put(out, at, T::say(place, m));
        place = place.after(m);
    }
}

// Either job: the tests, and then all is written.
fn write_out<T: Element>(symbols: &[u8], out: &mut [T]) -> Answer
    ensures answered { answers result ≡ fitted (length (output T.says symbols.now)) (length out.old) symbols.now }
    ensures written { OnOk result (out.new ≡ sets out.old 0 (output T.says symbols.now)) }
    ensures refused { OnErr result (out.new ≡ out.old) }
{
    let n = fit::<T>(symbols, out.len())?;
    write(symbols, out);
    Ok(n)
}

// Spell: a symbol list to code points, the one input that encodes to it and has no Ź inside a pair;
// the encoder meant is document 01's, which still takes ź. Refusals 10, 13, 5.
pub fn spell(symbols: &[u8], out: &mut [u32]) -> Answer
    ensures { Gave (spell (length out.old) symbols.now) (number_of result) (second_of result) out.old out.new }
{
    write_out(symbols, out)
}

// Scan: a symbol list to the bytes that a scanner sends. Refusals 10, 13, 5.
pub fn scan(symbols: &[u8], out: &mut [u8]) -> Answer
    ensures { Gave (scan (length out.old) symbols.now) (number_of result) (second_of result) out.old out.new }
{
    write_out(symbols, out)
}
