// From a line's bytes to its code points.
ghost use Rattle.std.specs.Prelude.{◌<◌, ◌≤◌, ◌^◌, ◌≡◌, length};
ghost use Rattle.line.specs.Line.{kind_of, effect, content_of};
ghost use Rattle.line.specs.Form.{as_kind, as_effect, Formed};

// What a byte is in a line: an upper-case hex digit, the blank between two numbers, or neither.
// Stays: with an Option for `Neither` the same arms stand below, with `Some` and `?` added.
#[derive(Clone, Copy)]
enum Kind {
    Hex(u8),
    Blank,
    Neither,
}

// A number as far as it is read: how many digits, and their value.
#[derive(Clone, Copy, Default)]
struct Number {
    digits: u8,
    value: u32,
}

// What the next byte does to a number: it goes on with it, or ends it.
#[derive(Clone, Copy)]
enum Effect {
    GoesOn(Number),
    PointEnds,
}

// What a byte is: the one place that knows the digits.
// Stays: `to_digit(16)` takes a to f too, which are no digits here.
#[tactic(auto, unfolding(crate::specs::Line::kind_of))]
fn kind_of(b: u8) -> Kind
    ensures { as_kind result ≡ kind_of b }
{
    match b {
        b' ' => Kind::Blank,
        b'0'..=b'9' => Kind::Hex(b - b'0'),
        b'A'..=b'F' => Kind::Hex(b - b'A' + 10),
        _ => Kind::Neither,
    }
}

impl Number {
    // What the byte `b` does after these digits; none where it may not stand there.
    #[tactic(auto, unfolding(crate::specs::Line::effect))]
    fn read_byte(self, b: u8) -> Option<Effect>
        requires { self.value < 16 ^ self.digits }
        ensures { as_effect result ≡ effect self.digits self.value (kind_of b) }
    {
        match kind_of(b) {
            Kind::Hex(d) if self.digits < 6 => Some(Effect::GoesOn(Number {
                digits: self.digits + 1,
                value: 16 * self.value + u32::from(d),
            })),
            Kind::Blank if 0 < self.digits => Some(Effect::PointEnds),
            _ => None,
        }
    }
}

// The code points of a line that has bytes, and not too many, stored in `text`; none for a line of
// another form.
fn read_points<'a>(line: &[u8], text: &'a mut [u32]) -> Option<&'a [u32]>
    requires { (1 ≤ length line.now) × (length line.now ≤ 4096) × (2048 ≤ length text.old) }
    ensures { Formed result (content_of line.now) }
{
    let mut number = Number::default();
    let mut n = 0;
    for b in line {
        match number.read_byte(*b)? {
            Effect::GoesOn(more) => number = more,
            Effect::PointEnds => {
                text[n] = number.value;
                n += 1;
                number = Number::default();
            }
        }
    }
    if 0 < number.digits {
        text[n] = number.value;
        Some(&text[..=n])
    } else {
        None
    }
}

// A line's code points, stored in `text`, by its length first; none for a line of another form. A
// line of 4,096 bytes has at most 2,048 code points.
#[tactic(auto, using(crate::proofs::Forms::form_empty, crate::proofs::Cut::long_other))]
pub(crate) fn code_points<'a>(line: &[u8], text: &'a mut [u32]) -> Option<&'a [u32]>
    requires { 2048 ≤ length text.old }
    ensures { Formed result (content_of line.now) }
{
    match line.len() {
        0 => Some(&[]),
        1..=4096 => read_points(line, text),
        _ => None,
    }
}
