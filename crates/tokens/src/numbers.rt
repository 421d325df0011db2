// The numbers of the code points in each set: the crate's columns of strings, as ranges.
#![tactic(auto, unfolding(crate::specs::Sets::lookup_of, crate::specs::Sets::named, crate::specs::Sets::start_in, paper::specs::Iso15417::start_of, paper::specs::Crate::number_in, paper::specs::Crate::in_both, paper::specs::Crate::spans))]

ghost use Rattle.std.specs.Prelude.{◌≡◌};
ghost use Rattle.paper.specs.Iso15417 as Iso;
ghost use Rattle.paper.specs.Crate.{in_both, spans, number_in};
ghost use Rattle.tokens.specs.Sets.{lookup_of};

use crate::{CharacterSet, Lookup};

// What sets A and B share: Ż, ź, Ž, Ć and Ź. ź has a case of its own, so that the parser need not
// compare every code point with it.
fn in_both(c: u32) -> Lookup
    ensures { result ≡ lookup_of (number_in in_both c) }
{
    match c {
        0x17B => Lookup::Unit(96),
        0x17A => Lookup::Retired,
        0x17D => Lookup::Unit(98),
        0x106 => Lookup::Unit(99),
        0x179 => Lookup::Unit(102),
        _ => Lookup::Nothing,
    }
}

// Set A: the control characters, the printed ones to `_`, Ɓ, ż.
pub fn in_a(c: u32) -> Lookup
    ensures { result ≡ lookup_of (number_in (spans Iso.A) c) }
{
    match c {
        0..=0x1F => Lookup::Unit((c + 64) as u8),
        0x20..=0x5F => Lookup::Unit((c - 0x20) as u8),
        // The letters come last: asked first, they would cost each printed character a test.
        _ => match c {
            0x181 => Lookup::Unit(100),
            0x17C => Lookup::Unit(101),
            _ => in_both(c),
        },
    }
}

// Set B: the printed characters, ÷, ż, À.
pub fn in_b(c: u32) -> Lookup
    ensures { result ≡ lookup_of (number_in (spans Iso.B) c) }
{
    match c {
        0..=0x1F => Lookup::Nothing,
        0x20..=0x7E => Lookup::Unit((c - 0x20) as u8),
        // As in `in_a`.
        _ => match c {
            0xF7 => Lookup::Unit(95),
            0x17C => Lookup::Unit(100),
            0xC0 => Lookup::Unit(101),
            _ => in_both(c),
        },
    }
}

// Set C, whose pairs of digits are the parser's: Ɓ, À and Ź.
pub fn in_c(c: u32) -> Lookup
    ensures { result ≡ lookup_of (number_in (spans Iso.C) c) }
{
    match c {
        0x181 => Lookup::Unit(100),
        0xC0 => Lookup::Unit(101),
        0x179 => Lookup::Unit(102),
        _ => Lookup::Nothing,
    }
}

// Before the START: the START of the set that the code point names.
pub fn in_none(c: u32) -> Lookup
    ensures { result ≡ lookup_of (number_in (spans Iso.before) c) }
{
    match CharacterSet::from_char(c).start() {
        Some(start) => Lookup::Unit(start),
        None => Lookup::Nothing,
    }
}
