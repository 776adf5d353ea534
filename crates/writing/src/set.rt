// The word of one record, set in the index of a register.
ghost use Rattle.std.specs.Prelude.{[], ◌∷◌};
ghost use Rattle.choice.specs.Choice.{woven_of, ChooseSays};
ghost use Rattle.writing.specs.Setting.{ToSet};

use choice::policy::word_of;
use limits::{LONGEST_KEY, MOST};
use row::fetch::fetch_from;
use row_words::insert_word;

// The word of a record of u goes among the first n words of the index, where the search found its key or the key's place. For two records
// under one key the new word stands there, or that of the greater value.
pub fn set_word(
    s: &[u8],
    u: &[u8],
    index: &mut [u64],
    n: usize,
    found: Result<(usize, usize), usize>,
    word: u64,
    greater: bool,
) -> Option<usize>
    requires { ToSet s.now u.now index.old n found word }
    ensures { ChooseSays s.now u.now (woven_of greater s.now u.now index.old n (word ∷ []) 1) result index.new }
{
    match found {
        Ok((position, place)) => {
            let mut buffer = [0u8; LONGEST_KEY];
            let other = fetch_from(u, word, &mut buffer, 0);
            let old = index[position];
            index[position] = word_of(s, u, greater, old, place, word, other.value);
            Some(n)
        }
        Err(position) => {
            if MOST <= n {
                return None;
            }
            insert_word(index, n, position, word);
            Some(n + 1)
        }
    }
}
