// Tables of spellings.

ghost use Rattle.std.specs.Prelude.{◌≡◌, map};
ghost use Rattle.std.specs.Str.{bytes_eq};
ghost use Rattle.pk_ctypes.specs.Spellings.{lookup};

/// Whether these are the same bytes.
pub fn is_spelled(bytes: &[u8], spelling: &[u8]) -> bool
    ensures { result ≡ bytes_eq bytes.now spelling.now }
{
    bytes == spelling
}

/// What stands beside a spelling in a table: in its first row with that spelling.
pub fn look_up<T: Copy>(table: &[(&[u8], T)], word: &[u8]) -> Option<T>
    ensures { result ≡ lookup (map (λ row. (row.0.now, row.1)) table.now) word.now }
{
    for row in table {
        if is_spelled(row.0, word) {
            return Some(row.1);
        }
    }
    None
}
