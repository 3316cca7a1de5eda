ghost use Rattle.std.specs.Prelude.{◌≡◌, ◌==◌, ◌<◌, ◌≤◌, [], ◌∷◌, Some, None, drop, length, MatchOption};
ghost use Rattle.std.specs.List.{position};
ghost use Rattle.eris_check.specs.FullLines.{full_lines, text_of};

/// The first line of bytes, with the LF that ends it; all of them where there is no LF. And the bytes
/// behind it.
#[tactic(auto, using(crate::proofs::FullLineLaws::full_line_cuts))]
pub(crate) fn first_full_line(bytes: &[u8]) -> (&[u8], &[u8])
    ensures lines { 0 < length bytes.now → full_lines bytes.now ≡ result.0.now ∷ full_lines result.1.now }
    ensures shorter { 0 < length bytes.now → length result.1.now < length bytes.now }
    ensures none { bytes.now ≡ [] → result.0.now ≡ [] }
{
    match end_of_line(bytes) {
        Some(end) => (&bytes[..end + 1], from(bytes, end + 1)),
        None => (bytes, &[]),
    }
}

fn from(bytes: &[u8], at: usize) -> &[u8]
    requires { at ≤ length bytes.now }
    ensures { result.now ≡ drop at bytes.now }
{
    &bytes[at..]
}

fn end_of_line(bytes: &[u8]) -> Option<usize>
    ensures { result ≡ position (λ byte. byte == 10) bytes.now }
{
    bytes.iter().position(|byte| *byte == b'\n')
}

/// The line without the LF that ends it. None exactly where no LF does.
pub(crate) fn text_of(line: &[u8]) -> Option<&[u8]>
    ensures { MatchOption result (text_of line.now ≡ None) (λ text. text_of line.now ≡ Some text.now) }
{
    match line {
        [text @ .., b'\n'] => Some(text),
        _ => None,
    }
}
