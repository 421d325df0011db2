// One line of the label program, on slices: the bytes of the line in, the bytes of the line that
// it gives out.
#![tactic(auto)]

ghost use Rattle.line.specs.Line.{line_out, Wrote};

mod form;
mod text;

// What a line gives, at the front of `out`, where it fits. Returns how many bytes were written.
// Stays: 0 where it does not fit is a clause (`Wrote`), and no line has no bytes.
pub fn answer_line(line: &[u8], out: &mut [u8]) -> usize
    ensures { Wrote (line_out line.now) result out.old out.new }
{
    let mut points = [0u32; 2048];
    match form::code_points(line, &mut points) {
        Some(text) => text::answer_points(text, out),
        None => text::write_line(b"?", &[], out),
    }
}
