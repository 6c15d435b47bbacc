//! Spellings of tokens.

ghost use Rattle.std.specs.Prelude.{◌≡◌};
ghost use Rattle.nesc_conditions.specs.Signs.{lookup, spelled_rows};

/// What the table has for this spelling.
pub(crate) fn look_up<T: Copy>(table: &[(&[u8], T)], text: &[u8]) -> Option<T>
    ensures { result ≡ lookup text.now (spelled_rows table.now) }
{
    for (spelling, meaning) in table {
        if text == *spelling {
            return Some(*meaning);
        }
    }
    None
}
