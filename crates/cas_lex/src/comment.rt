//! How long comments are.

ghost use Rattle.std.specs.Prelude.{◌≡◌, ◌≤◌, length, IfSome};
ghost use Rattle.cas_lex.specs.Comments as spec;

/// The length of the comment with `/*` that begins a text: up to the next `*/`.
pub fn block_comment_len(text: &[u8]) -> Option<usize>
    requires { 2 ≤ length text.now }
    ensures { result ≡ spec.block_comment_len text.now }
{
    let len = closing_len(&text[2..])?;
    Some(len + 2)
}

/// The length of the comment with `//` that begins a text: up to the end of the line.
pub fn line_comment_len(text: &[u8]) -> usize
    ensures { result ≡ spec.line_comment_len text.now }
{
    text.iter().take_while(|byte| **byte != b'\n').count()
}

// How many bytes there are up to the end of the first `*/`.
fn closing_len(text: &[u8]) -> Option<usize>
    ensures value { result ≡ spec.closing_len text.now }
    ensures within { IfSome result (λ len. len ≤ length text.now) }
{
    for i in 0..text.len() {
        if text[i..].starts_with(b"*/") {
            return Some(i + 2);
        }
    }
    None
}
