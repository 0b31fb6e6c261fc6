// The comments that are open where lines begin.

ghost use Rattle.std.specs.Prelude.{◌≡◌, fold, length};
ghost use Rattle.std.specs.List.{take_while};
ghost use Rattle.pk_lex.specs.Bytes.{is_blank};
ghost use Rattle.pk_lex.specs.Lines.{after_blanks};
ghost use Rattle.pk_origin.specs.Texts.{after_code, within_after, is_in_comment, is_directive, open_behind};

/// What a place of a text stands in.
#[derive(Clone, Copy)]
pub(crate) enum Within {
    Code,
    /// Behind a `/` of code.
    Slash,
    Comment,
    /// Behind a `*` of a comment.
    Star,
    LineComment,
    /// Behind this opening quote.
    Literal(u8),
    /// Behind a backslash of such a literal.
    Escape(u8),
}

fn after_code(b: u8) -> Within
    ensures { result ≡ after_code b }
{
    if b == b'/' {
        Within::Slash
    } else if b == b'\'' || b == b'"' {
        Within::Literal(b)
    } else {
        Within::Code
    }
}

fn after(within: Within, b: u8) -> Within
    ensures { result ≡ within_after within b }
{
    match within {
        Within::Code => after_code(b),
        Within::Slash => {
            if b == b'*' {
                Within::Comment
            } else if b == b'/' {
                Within::LineComment
            } else {
                after_code(b)
            }
        }
        Within::Comment => {
            if b == b'*' {
                Within::Star
            } else {
                Within::Comment
            }
        }
        Within::Star => {
            if b == b'/' {
                Within::Code
            } else if b == b'*' {
                Within::Star
            } else {
                Within::Comment
            }
        }
        Within::LineComment => Within::LineComment,
        Within::Literal(quote) => {
            if b == quote {
                Within::Code
            } else if b == b'\\' {
                Within::Escape(quote)
            } else {
                Within::Literal(quote)
            }
        }
        Within::Escape(quote) => Within::Literal(quote),
    }
}

// What stands behind a line, by what it begins in.
fn behind(start: Within, line: &[u8]) -> Within
    ensures { result ≡ fold within_after start line.now }
{
    let mut within = start;
    for b in line {
        within = after(within, *b);
    }
    within
}

fn is_comment(within: Within) -> bool
    ensures { result ≡ is_in_comment within }
{
    match within {
        Within::Code => false,
        Within::Slash => false,
        Within::Comment => true,
        Within::Star => true,
        Within::LineComment => false,
        Within::Literal(_) => false,
        Within::Escape(_) => false,
    }
}

/// Whether a byte is a blank.
pub(crate) fn is_blank_byte(b: u8) -> bool
    ensures { result ≡ is_blank b }
{
    b == b' ' || b == b'\t' || (11 <= b && b <= 13)
}

fn blank_count(text: &[u8]) -> usize
    ensures { result ≡ length (take_while is_blank text.now) }
{
    text.iter().take_while(|b| is_blank_byte(**b)).count()
}

/// What stands behind the blanks that a text begins with.
pub(crate) fn after_blanks(text: &[u8]) -> &[u8]
    ensures { result.now ≡ after_blanks text.now }
{
    text.split_at(blank_count(text)).1
}

fn is_directive(line: &[u8]) -> bool
    ensures { result ≡ is_directive line.now }
{
    match after_blanks(line) {
        [] => false,
        [b, ..] => *b == b'#',
    }
}

/// Whether a comment is open behind a line, by whether one is open before it.
pub(crate) fn is_open_behind(is_open: bool, line: &[u8]) -> bool
    ensures { result ≡ open_behind is_open line.now }
{
    if is_open {
        return is_comment(behind(Within::Comment, line));
    }
    if is_directive(line) {
        return false;
    }
    is_comment(behind(Within::Code, line))
}
