// The common floor of every symbology: what a job answers, and after `src/sym/helpers.rs` of
// barcoders 2.0.0 the check digit by modulo 10, and writing into a part of a lent buffer, where
// `join_slices` returns a new vector.
#![tactic(auto)]

ghost use Rattle.std.specs.Prelude.{◌<◌, ◌≤◌, min, length, ◌≡◌};
ghost use Rattle.std.proofs.lemmas.List.Edits.{sets};
ghost use Rattle.helpers.specs.Modulo10.{in_turn, first_weight, modulo10};
ghost use Rattle.helpers.specs.Terms.{Turn};
ghost use Rattle.helpers.specs.Numbers.{refusal_number, refusal_second, number_of, second_of};

// Why a job refuses: the refusals of documents 01 and 02 by name, in the order of their numbers,
// each with its second number.
#[derive(Clone, Copy)]
pub enum Refusal {
    // 1: a value that is no Unicode scalar value.
    Scalar(usize),
    // 2: fewer than two UTF-8 bytes; the crate's `Error::Length`.
    Length(usize),
    // 3: the crate's `Error::Character`.
    Character(usize),
    // 4: more symbols than the limit.
    Symbols(usize),
    // 5: the output buffer is too short.
    Room(usize),
    // 10: a list or row of a length that is not possible under the limit.
    Size(usize),
    // 11: a cell neither 0 nor 1.
    Cell(usize),
    // 12: a block that is none of the 106 patterns and has an even number of bar cells.
    Pattern(usize),
    // 13: a number where it may not stand.
    Place(usize),
    // 14: a wrong check.
    Check(usize),
    // 15: no stop at the row's end.
    Stop(usize),
    // 16: a block that is none of the 106 patterns and has an odd number of bar cells.
    Worn(usize),
    // 19: ź, which is FNC2 and retired.
    Retired(usize),
    // 20: a record under two bytes.
    Short(usize),
    // 21: another version.
    Version(usize),
    // 22: a record that is not as long as its count needs.
    Count(usize),
    // 23: a spare bit that is set.
    Spare(usize),
    // 30: a text of a length that the symbology does not have.
    TextLength(usize),
    // 31: a character that is not a digit.
    Digit(usize),
    // 32: a wrong check digit.
    CheckDigit(usize),
    // 33: not a row of the symbology.
    Row(usize),
}

// Accepted with a number, or refused.
pub type Answer = Result<usize, Refusal>;

impl Refusal {
    // The documents' number of the refusal.
    #[tactic(auto, unfolding(crate::specs::Numbers::refusal_number))]
    pub fn number(self) -> u32
        ensures { result ≡ refusal_number self }
    {
        match self {
            Refusal::Scalar(_) => 1,
            Refusal::Length(_) => 2,
            Refusal::Character(_) => 3,
            Refusal::Symbols(_) => 4,
            Refusal::Room(_) => 5,
            Refusal::Size(_) => 10,
            Refusal::Cell(_) => 11,
            Refusal::Pattern(_) => 12,
            Refusal::Place(_) => 13,
            Refusal::Check(_) => 14,
            Refusal::Stop(_) => 15,
            Refusal::Worn(_) => 16,
            Refusal::Retired(_) => 19,
            Refusal::Short(_) => 20,
            Refusal::Version(_) => 21,
            Refusal::Count(_) => 22,
            Refusal::Spare(_) => 23,
            Refusal::TextLength(_) => 30,
            Refusal::Digit(_) => 31,
            Refusal::CheckDigit(_) => 32,
            Refusal::Row(_) => 33,
        }
    }

    // Its second number: a place, a length, or what is due.
    pub fn second(self) -> usize
        ensures { result ≡ refusal_second self }
    {
        match self {
            Refusal::Scalar(k)
            | Refusal::Length(k)
            | Refusal::Character(k)
            | Refusal::Symbols(k)
            | Refusal::Room(k)
            | Refusal::Size(k)
            | Refusal::Cell(k)
            | Refusal::Pattern(k)
            | Refusal::Place(k)
            | Refusal::Check(k)
            | Refusal::Stop(k)
            | Refusal::Worn(k)
            | Refusal::Retired(k)
            | Refusal::Short(k)
            | Refusal::Version(k)
            | Refusal::Count(k)
            | Refusal::Spare(k)
            | Refusal::TextLength(k)
            | Refusal::Digit(k)
            | Refusal::CheckDigit(k)
            | Refusal::Row(k) => k,
        }
    }
}

// The answer number: 0 where it is accepted.
#[tactic(auto, unfolding(crate::specs::Numbers::number_of))]
pub fn number_of(answer: Answer) -> u32
    ensures { result ≡ number_of answer }
{
    match answer {
        Ok(_) => 0,
        Err(refusal) => refusal.number(),
    }
}

// The second number.
#[tactic(auto, unfolding(crate::specs::Numbers::second_of))]
pub fn second_of(answer: Answer) -> usize
    ensures { result ≡ second_of answer }
{
    match answer {
        Ok(n) => n,
        Err(refusal) => refusal.second(),
    }
}

// The smaller of two numbers.
// Stays: public functions stay; the code itself says `a.min(b)`.
pub fn shorter(a: usize, b: usize) -> usize
    ensures { result ≡ min a b }
{
    a.min(b)
}

// A byte as a number to count with.
// Stays: public functions stay; the code itself says `usize::from(x)`.
pub fn wide(x: u8) -> usize
    ensures { (result ≡ x) × (result < 256) }
{
    usize::from(x)
}

// Writes `slice` into the front of `part`, as far as both reach.
pub fn join_slices(part: &mut [u8], slice: &[u8])
    ensures { part.new ≡ sets part.old 0 slice.now }
{
    let n = part.len().min(slice.len());
    part[..n].copy_from_slice(&slice[..n]);
}

// The weight of the first digit, where 1 and 3 weigh in turn.
#[tactic(auto, unfolding(crate::specs::Modulo10::first_weight))]
fn first_weight(even_start: bool) -> u32
    ensures { result ≡ first_weight even_start }
{
    if even_start { 1 } else { 3 }
}

// The sum of at most 1,000 digits, where 1 and 3 weigh in turn and the first digit weighs `first`.
fn sum_in_turn(part: &[u8], first: u32) -> u32
    requires { (length part.now ≤ 1000) × Turn first }
    ensures { (result ≡ in_turn first part.now) × (result ≤ 765000) }
{
    let mut sum = 0;
    let mut weight = first;
    for digit in part {
        sum += weight * u32::from(*digit);
        weight = 4 - weight;
    }
    sum
}

// The check digit by modulo 10: what a sum lacks to a multiple of ten, where 1 and 3 weigh in turn,
// 1 first if `even_start`. The sum is made in parts of 1,000 digits, an even number, and only its
// last digit is kept, so that no number of digits is too many.
pub fn modulo_10_checksum(data: &[u8], even_start: bool) -> u8
    ensures { result ≡ modulo10 even_start «data».now }
{
    let weight = first_weight(even_start);
    let mut sum = 0;
    for part in data.chunks(1000) {
        sum = (sum + sum_in_turn(part, weight)) % 10;
    }
    ((10 - sum) % 10) as u8
}
