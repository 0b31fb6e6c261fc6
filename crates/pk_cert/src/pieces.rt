// Literals, names and texts of a known length.

ghost use Rattle.std.specs.Prelude.{◌≡◌, ◌+◌, MatchResult, length, take};
ghost use Rattle.std.specs.List.{list_all};
ghost use Rattle.pk_lex.specs.Bytes.{is_letter, is_part};
ghost use Rattle.pk_cert.specs.Beginnings.{TextsOf, IsStop};
ghost use Rattle.pk_cert.specs.Pieces.{AreFirst, IsLinedName, IsLinedBlock, IsName, IsBlock, lined};

/// Whether bytes begin with a literal, or with how many of its bytes they do.
pub(crate) fn literal(bytes: &[u8], text: &[u8]) -> Result<(), usize>
    ensures { MatchResult result (λ u. AreFirst text.now bytes.now (length text.now))
        (λ n. IsStop (λ t. t ≡ text.now) bytes.now n) }
{
    for k in 0..text.len() {
        if k >= bytes.len() || bytes[k] != text[k] {
            return Err(k);
        }
    }
    Ok(())
}

fn is_letter_byte(b: u8) -> bool
    ensures { result ≡ is_letter b }
{
    (b'a' <= b && b <= b'z') || (b'A' <= b && b <= b'Z') || b == b'_'
}

fn is_part_byte(b: u8) -> bool
    ensures { result ≡ is_part b }
{
    is_letter_byte(b) || (b'0' <= b && b <= b'9')
}

/// How long the name is that stands first, with the line's end behind it.
pub(crate) fn name(bytes: &[u8]) -> Result<usize, usize>
    ensures { MatchResult result (λ n. IsLinedName bytes.now n)
        (λ n. IsStop (TextsOf IsName lined) bytes.now n) }
{
    if bytes.len() < 1 {
        return Err(0);
    }
    if !is_letter_byte(bytes[0]) {
        return Err(0);
    }
    for k in 1..bytes.len() {
        if bytes[k] == b'\n' {
            return Ok(k);
        }
        if !is_part_byte(bytes[k]) {
            return Err(k);
        }
    }
    Err(bytes.len())
}

/// Whether a text of so many bytes stands first, with a line's end behind it.
pub(crate) fn block(bytes: &[u8], size: usize) -> Result<(), usize>
    ensures { MatchResult result (λ u. IsLinedBlock size bytes.now)
        (λ n. IsStop (TextsOf (IsBlock size) lined) bytes.now n) }
{
    if bytes.len() < size {
        Err(bytes.len())
    } else if bytes.len() == size || bytes[size] != b'\n' {
        Err(size)
    } else {
        Ok(())
    }
}
