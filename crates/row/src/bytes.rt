// Values of the records of a row.
ghost use Rattle.std.specs.Prelude.{◌≡◌, ◌+◌, ◌≤◌, length};
ghost use Rattle.value.specs.Value.{digest_length, value_in};
ghost use Rattle.row.specs.Row.{source_of};

use value::{Value, value_at};
use word::is_first;

// The value at a place of the register that a word belongs to.
pub fn value_of(s: &[u8], u: &[u8], word: u64, at: usize) -> Value
    ensures { at + digest_length ≤ length (source_of s.now u.now word) → result ≡ value_in (source_of s.now u.now word) at }
{
    if is_first(word) {
        return value_at(s, at);
    }
    value_at(u, at)
}
