ghost use Rattle.std.specs.Prelude.{◌≡◌, ◌==◌, ◌<◌, ◌≤◌, [], ◌∷◌, length};
ghost use Rattle.std.specs.List.{before_first, after_first, position};
ghost use Rattle.std.specs.Str.Lines.{strip_carriage_return};
ghost use Rattle.eris_words.specs.Cuts.{first_word, lines};

/// The first line of a script's bytes, without the LF and the CR that end it, and the bytes that follow
/// it. It takes no memory.
#[tactic(auto, using(crate::proofs::LineCuts::lines_step))]
pub fn first_line(text: &[u8]) -> (&[u8], &[u8])
    ensures lines { 0 < length text.now → lines text.now ≡ result.0.now ∷ lines result.1.now }
    ensures none { text.now ≡ [] → result.0.now ≡ [] }
    ensures shorter { 0 < length text.now → length result.1.now < length text.now }
    ensures no_longer { length result.1.now ≤ length text.now }
{
    let (line, rest) = cut(text, b'\n');
    (without_cr(line), rest)
}

/// The first word of a line, all of the line where it has no space. It takes no memory.
pub fn first_word(line: &[u8]) -> &[u8]
    ensures { result.now ≡ first_word line.now }
{
    cut(line, b' ').0
}

fn without_cr(line: &[u8]) -> &[u8]
    ensures { result.now ≡ strip_carriage_return line.now }
{
    match line {
        [front @ .., b'\r'] => front,
        _ => line,
    }
}

/// What stands before the first `at`, and what stands behind it; all and nothing where there is none.
pub fn cut(text: &[u8], at: u8) -> (&[u8], &[u8])
    ensures front { result.0.now ≡ before_first (λ byte. byte == at) text.now }
    ensures rest { result.1.now ≡ after_first (λ byte. byte == at) text.now }
{
    match place_of(text, at) {
        Some(end) => (&text[..end], &text[end + 1..]),
        None => (text, &[]),
    }
}

fn place_of(text: &[u8], at: u8) -> Option<usize>
    ensures { result ≡ position (λ byte. byte == at) text.now }
{
    text.iter().position(|byte| *byte == at)
}
