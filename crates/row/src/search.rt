// Where a key stands among the records of an index, by halves of it.
ghost use Rattle.std.specs.Prelude.{◌≤◌, length};
ghost use Rattle.row.specs.Search.{count_below, count_up_to, PositionFits, SearchSays, CountSays};

use crate::fetch::fetch_from;
use key_order::compare;
use limits::LONGEST_KEY;
use std::cmp::Ordering;

// The position of the key's record and the place of its value; or the number of records before the key.
pub fn search(s: &[u8], index: &[u64], count: usize, key: &[u8]) -> Result<(usize, usize), usize>
    requires { count ≤ length index.now }
    ensures says { SearchSays s.now index.now count key.now result }
    ensures fits { PositionFits count result }
{
    let mut buffer = [0u8; LONGEST_KEY];
    let mut low = 0;
    let mut high = count;
    // The range that is left is halved. The library's search wants an answer for every word, and only the word of a record has a key.
    while low < high {
        let middle = low + (high - low) / 2;
        let found = fetch_from(s, index[middle], &mut buffer, 0);
        let size = found.size;
        if LONGEST_KEY < size {
            return Err(low);
        }
        match compare(&buffer[..size], key) {
            Ordering::Less => {
                low = middle + 1;
            }
            Ordering::Equal => {
                return Ok((middle, found.value));
            }
            Ordering::Greater => {
                high = middle;
            }
        }
    }
    Err(low)
}

// The number of records before a key: the position of the first at or after it.
pub fn count_below(s: &[u8], index: &[u64], count: usize, key: &[u8]) -> usize
    requires { count ≤ length index.now }
    ensures says { CountSays (count_below key.now) s.now index.now count result }
    ensures fits { result ≤ count }
{
    match search(s, index, count, key) {
        Ok((position, _)) => position,
        Err(position) => position,
    }
}

// The number of records up to and including a key.
pub fn count_up_to(s: &[u8], index: &[u64], count: usize, key: &[u8]) -> usize
    requires { count ≤ length index.now }
    ensures says { CountSays (count_up_to key.now) s.now index.now count result }
    ensures fits { result ≤ count }
{
    match search(s, index, count, key) {
        Ok((position, _)) => position + 1,
        Err(position) => position,
    }
}
