// The tests of a text that come before parsing.
ghost use Rattle.std.specs.Prelude.{◌≡◌, leb, not, position};
ghost use Rattle.paper.specs.Crate.{is_scalar, utf8_bytes};

// Is it a Unicode scalar value?
#[tactic(auto, unfolding(paper::specs::Crate::is_scalar))]
fn is_scalar(c: u32) -> bool
    ensures { result ≡ is_scalar c }
{
    char::from_u32(c).is_some()
}

// The first place of `text` whose value is no scalar value, if there is one.
pub fn first_no_scalar(text: &[u32]) -> Option<usize>
    ensures { result ≡ position (λ c. not (is_scalar c)) text.now }
{
    text.iter().position(|c| !is_scalar(*c))
}

// Does the text make two UTF-8 bytes? Two code points do, and so does one from 80 (hex) on.
#[tactic(auto, using(crate::proofs::Stopping::two_bytes_none, crate::proofs::Stopping::two_bytes_one, crate::proofs::Stopping::two_bytes_many))]
pub fn has_two_bytes(text: &[u32]) -> bool
    ensures { result ≡ leb 2 (utf8_bytes text.now) }
{
    match text {
        [] => false,
        [c] => 0x80 <= *c,
        _ => true,
    }
}
