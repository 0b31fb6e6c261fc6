// Lines, and those with a `#`.

ghost use Rattle.std.specs.Prelude.{◌≡◌, length};
ghost use Rattle.std.specs.List.{take_while};
ghost use Rattle.pk_lex.specs.Bytes.{is_blank, is_part, begins_with};
ghost use Rattle.pk_lex.specs.Lines.{line_of, begins_line, opens_directive, begins_with_digit, is_skipped};

use crate::bytes::{blank, digit, part, split};
use pk_ctypes::is_spelled;

// How many bytes there are up to the end of the line.
pub(crate) fn line_count(text: &[u8]) -> usize
    ensures { result ≡ length (line_of text.now) }
{
    text.iter().take_while(|b| **b != b'\n').count()
}

// The bytes up to the end of the line.
pub(crate) fn line(text: &[u8]) -> &[u8]
    ensures { result.now ≡ line_of text.now }
{
    text.split_at(line_count(text)).0
}

// Whether there are only blanks before a place on its line.
fn at_line_begin(front: &[u8]) -> bool
    ensures { result ≡ begins_line front.now }
{
    front
        .iter()
        .rev()
        .take_while(|b| **b != b'\n')
        .all(|b| blank(*b))
}

// Whether the first byte is this one.
pub(crate) fn begins(text: &[u8], c: u8) -> bool
    ensures { result ≡ begins_with c text.now }
{
    match split(text) {
        None => false,
        Some((b, _)) => b == c,
    }
}

// Whether a line with a `#` as its first byte that isn't a blank begins at a place.
pub(crate) fn at_directive(front: &[u8], text: &[u8]) -> bool
    ensures { result ≡ opens_directive front.now text.now }
{
    begins(text, b'#') && at_line_begin(front)
}

fn blank_count(text: &[u8]) -> usize
    ensures { result ≡ length (take_while is_blank text.now) }
{
    text.iter().take_while(|b| blank(**b)).count()
}

// How many letters and digits there are.
pub(crate) fn part_count(text: &[u8]) -> usize
    ensures { result ≡ length (take_while is_part text.now) }
{
    text.iter().take_while(|b| part(**b)).count()
}

fn begins_digit(text: &[u8]) -> bool
    ensures { result ≡ begins_with_digit text.now }
{
    match split(text) {
        None => false,
        Some((b, _)) => digit(b),
    }
}

// Whether a line with a `#` has nothing for a compiler.
pub(crate) fn skipped(line: &[u8]) -> bool
    ensures { result ≡ is_skipped line.now }
{
    let Some((_, rest)) = split(line) else {
        return false;
    };
    let text = rest.split_at(blank_count(rest)).1;
    begins_digit(text) || is_spelled(text.split_at(part_count(text)).0, b"pragma")
}
