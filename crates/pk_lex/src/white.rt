// White space.

ghost use Rattle.std.specs.Prelude.{◌≡◌, ◌&&◌, false, MatchOption};
ghost use Rattle.pk_lex.specs.Lines.{line_of, opens_directive, is_skipped};
ghost use Rattle.pk_lex.specs.WhiteSpace.{opens_block, opens_line, has_close, begins_with_both};
ghost use Rattle.pk_lex.specs.Steps.{IsFirstClose, NoWhite, IsFirstWhite};

use crate::bytes::{split, white};
use crate::lines::{at_directive, begins, line, line_count, skipped};

// Whether these are the first two bytes.
fn begins_both(text: &[u8], c: u8, d: u8) -> bool
    ensures { result ≡ begins_with_both c d text.now }
{
    match split(text) {
        None => false,
        Some((b, rest)) => b == c && begins(rest, d),
    }
}

// Whether `/*` are the first two bytes.
pub(crate) fn at_block(text: &[u8]) -> bool
    ensures { result ≡ opens_block text.now }
{
    begins_both(text, b'/', b'*')
}

// Whether `//` are the first two bytes.
pub(crate) fn at_line_comment(text: &[u8]) -> bool
    ensures { result ≡ opens_line text.now }
{
    begins_both(text, b'/', b'/')
}

// How many bytes stand before the first `*/`.
fn close_count(text: &[u8]) -> Option<usize>
    ensures { MatchOption result (has_close text.now ≡ false) (λ n. IsFirstClose text.now n) }
{
    let mut i = 0;
    while i + 1 < text.len() {
        if text[i] == b'*' && text[i + 1] == b'/' {
            return Some(i);
        }
        i += 1;
    }
    None
}

// Whether a line that is skipped begins at a place.
fn at_skipped(front: &[u8], text: &[u8]) -> bool
    ensures { result ≡ (opens_directive front.now text.now && is_skipped (line_of text.now)) }
{
    at_directive(front, text) && skipped(line(text))
}

// How many bytes the piece of white space has that begins at a place.
pub(crate) fn white_count(front: &[u8], text: &[u8]) -> Option<usize>
    ensures { MatchOption result (NoWhite front.now text.now) (λ n. IsFirstWhite front.now text.now n) }
{
    let Some((b, _)) = split(text) else {
        return None;
    };
    if white(b) {
        return Some(1);
    }
    if at_block(text) {
        let Some(n) = close_count(text.split_at(2).1) else {
            return None;
        };
        return Some(n + 4);
    }
    if at_line_comment(text) {
        return Some(line_count(text));
    }
    if at_skipped(front, text) {
        return Some(line_count(text));
    }
    None
}
