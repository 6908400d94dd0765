//! Lines of a text.

ghost use Rattle.std.specs.Prelude.{◌≡◌, ◌≤◌, ◌<◌, ◌++◌, ◌∷◌, [], length, IfSome, MatchOption};
ghost use Rattle.std.specs.List.{prefix_len};
ghost use Rattle.cas_pieces.specs.Lines as spec;

/// The first line of a text without its line feed, and what follows that. None where the text has no line feed, and so
/// is one line.
pub fn cut_line(text: &[u8]) -> Option<(&[u8], &[u8])>
    ensures lines { MatchOption result (spec.lines text.now ≡ text.now ∷ []) (λ p. spec.lines text.now
        ≡ p.0.now ∷ spec.lines p.1.now) }
    ensures joined { IfSome result (λ p. text.now ≡ p.0.now ++ 10 ∷ p.1.now) }
    ensures shorter { IfSome result (λ p. length p.1.now < length text.now) }
{
    let (line, rest) = text.split_at(line_len(text));
    match rest.split_first() {
        Some((_, after)) => Some((line, after)),
        None => None,
    }
}

// How many bytes the first line has.
fn line_len(text: &[u8]) -> usize
    ensures value { result ≡ prefix_len spec.is_inner text.now }
    ensures within { result ≤ length text.now }
{
    text.iter().take_while(|byte| **byte != b'\n').count()
}
