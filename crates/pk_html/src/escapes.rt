// Text in a page.

ghost use Rattle.std.specs.Prelude.{◌≡◌, ◌++◌, MatchOption, None, Some, OnOk};
ghost use Rattle.pk_html.specs.Escapes.{reference_for, escape, escaped};

use std::alloc::AllocError;

// The character reference that stands for a byte.
#[tactic(auto, unfolding(crate::specs::Escapes::reference_for))]
fn reference_for(b: u8) -> Option<&'static str>
    ensures { MatchOption result (reference_for b ≡ None) (λ text. reference_for b ≡ Some text.now) }
{
    if b == b'&' {
        Some("&amp;")
    } else if b == b'<' {
        Some("&lt;")
    } else if b == b'>' {
        Some("&gt;")
    } else if b == b'"' {
        Some("&quot;")
    } else if b == b'\'' {
        Some("&#39;")
    } else {
        None
    }
}

fn write_byte(bytes: &mut Vec<u8>, b: u8) -> Result<(), AllocError>
    ensures { OnOk result (bytes.new.items ≡ bytes.old.items ++ escape b) }
{
    match reference_for(b) {
        Some(text) => bytes.extend_from_slice(text.as_bytes()),
        None => bytes.extend_from_slice(&[b]),
    }
}

/// Writes a text, with character references for what isn't to be read as a tag.
pub(crate) fn write_text(bytes: &mut Vec<u8>, text: &[u8]) -> Result<(), AllocError>
    ensures { OnOk result (bytes.new.items ≡ bytes.old.items ++ escaped text.now) }
{
    for b in text {
        write_byte(bytes, *b)?;
    }
    Ok(())
}
