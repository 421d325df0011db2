// The C face of the nine jobs, seven of Code 128 and two of EAN-13: the same contracts, with the
// answer by value. include/slatmonief.h declares them.
#![tactic(auto)]

ghost use Rattle.std.specs.Prelude.{length};
ghost use Rattle.helpers.specs.Answers.{Gave};
ghost use Rattle.paper.specs.Jobs.{encode, draw, read, spell, scan, pack, unpack};
ghost use Rattle.ean.specs.Ean13.{write_ean13, read_ean13};
ghost use Rattle.slatmonief.specs.Numbered.{Numbered};

use helpers::Answer;

// The documents' two numbers: 0 and the number of an acceptance, or a refusal's number and its
// second number.
// Stays: C takes two numbers by value (include/slatmonief.h), so this is no Result.
#[repr(C)]
#[derive(Clone, Copy)]
pub struct Numbers {
    pub number: u32,
    pub second: usize,
}

impl From<Answer> for Numbers {
    // The two numbers of an answer.
    ghost from_gives = { λ answer numbers. Numbered answer numbers.number numbers.second };

    fn from(answer: Answer) -> Numbers {
        Numbers {
            number: helpers::number_of(answer),
            second: helpers::second_of(answer),
        }
    }
}

// Stays: the nine below are alike, since C calls each job by a name of its own.

// Code points to a row.
#[unsafe(no_mangle)]
pub extern "C" fn slatmonief_encode(text: &[u32], row: &mut [u8]) -> Numbers
    ensures { Gave (encode (length row.old) text.now) result.number result.second row.old row.new }
{
    code128::encode(text, row).into()
}

// A symbol list to a row.
#[unsafe(no_mangle)]
pub extern "C" fn slatmonief_draw(symbols: &[u8], row: &mut [u8]) -> Numbers
    ensures { Gave (draw (length row.old) symbols.now) result.number result.second row.old row.new }
{
    code128::draw(symbols, row).into()
}

// A row to its symbol list.
#[unsafe(no_mangle)]
pub extern "C" fn slatmonief_read(row: &[u8], symbols: &mut [u8]) -> Numbers
    ensures { Gave (read (length symbols.old) row.now) result.number result.second symbols.old symbols.new }
{
    reader::read(row, symbols).into()
}

// A symbol list to code points.
#[unsafe(no_mangle)]
pub extern "C" fn slatmonief_spell(symbols: &[u8], text: &mut [u32]) -> Numbers
    ensures { Gave (spell (length text.old) symbols.now) result.number result.second text.old text.new }
{
    speller::spell(symbols, text).into()
}

// A symbol list to the bytes that a scanner sends.
#[unsafe(no_mangle)]
pub extern "C" fn slatmonief_scan(symbols: &[u8], bytes: &mut [u8]) -> Numbers
    ensures { Gave (scan (length bytes.old) symbols.now) result.number result.second bytes.old bytes.new }
{
    speller::scan(symbols, bytes).into()
}

// A row's cells to a row record.
#[unsafe(no_mangle)]
pub extern "C" fn slatmonief_pack(row: &[u8], record: &mut [u8]) -> Numbers
    ensures { Gave (pack (length «record».old) row.now) result.number result.second «record».old «record».new }
{
    record::pack(row, record).into()
}

// A row record to its cells.
#[unsafe(no_mangle)]
pub extern "C" fn slatmonief_unpack(record: &[u8], row: &mut [u8]) -> Numbers
    ensures { Gave (unpack (length row.old) «record».now) result.number result.second row.old row.new }
{
    record::unpack(record, row).into()
}

// Twelve ASCII digits, or thirteen with the check, to a row of EAN-13.
#[unsafe(no_mangle)]
pub extern "C" fn slatmonief_ean13_write(text: &[u8], row: &mut [u8]) -> Numbers
    ensures { Gave (write_ean13 (length row.old) text.now) result.number result.second row.old row.new }
{
    ean::ean13::write(text, row).into()
}

// A row of EAN-13 to its thirteen ASCII digits.
#[unsafe(no_mangle)]
pub extern "C" fn slatmonief_ean13_read(row: &[u8], text: &mut [u8]) -> Numbers
    ensures { Gave (read_ean13 (length text.old) row.now) result.number result.second text.old text.new }
{
    ean_reader::ean13::read(row, text).into()
}
