// The entries of one page: the tests of their keys, and the search among them. Keys stand in a buffer as long as the longest lawful key; of a
// longer one the length is known, and its page is refused.
ghost use Rattle.std.specs.Prelude.{◌+◌, ◌≤◌, length};
ghost use Rattle.limits.specs.Limits.{longest_key};
ghost use Rattle.path_reader.specs.Judging.{Rises, PastEntry, TakesEntry, JudgesEntries};

use key_order::compare;
use limits::LONGEST_KEY;
use page_keys::{extend_key, key_is_lawful, prefix_fits};
use page_reader::{EntryAt, locate_entry};
use std::cmp::Ordering;

// Where the search for a key stands in a page. It goes on behind entries that come before the key; or the key is an entry; or it would stand
// in a gap. A value is known by its place, and a gap by the place of its link's digest, or 0.
#[derive(Clone, Copy)]
pub enum Search {
    On(usize),
    Value(usize),
    Gap(usize),
}

// What the entries of a page say: whether each test holds, and the search.
#[derive(Clone, Copy)]
pub struct EntriesJudged {
    pub prefixes: bool,
    pub lawful: bool,
    pub rising: bool,
    pub search: Search,
}

// Whether a key is greater than the key held before it, where its prefix length is right: the first byte after the prefix decides.
fn rises(buffer: &[u8], size: usize, s: &[u8], shares: usize, at: usize, n: usize) -> bool
    requires { at + n ≤ length s.now }
    ensures { Rises buffer.now size s.now shares at n result }
{
    if n == 0 {
        return false;
    }
    if size <= shares {
        return true;
    }
    if buffer.len() <= shares {
        return false;
    }
    buffer[shares] < s[at]
}

// The search goes past an entry whose key is held. It stays where it is at a key that is longer than the buffer.
fn past_entry(search: Search, buffer: &[u8], size: usize, key: &[u8], e: EntryAt) -> Search
    ensures { PastEntry buffer.now size key.now e search result }
{
    match search {
        Search::On(gap) => {
            if buffer.len() < size {
                return Search::On(gap);
            }
            match compare(key, &buffer[..size]) {
                Ordering::Less => Search::Gap(gap),
                Ordering::Equal => Search::Value(e.value),
                Ordering::Greater => Search::On(e.link),
            }
        }
        Search::Value(value) => Search::Value(value),
        Search::Gap(link) => Search::Gap(link),
    }
}

// One entry more, whose key is held: its tests, and the search.
fn take_entry(
    judged: EntriesJudged,
    fits: bool,
    rising: bool,
    buffer: &[u8],
    size: usize,
    key: &[u8],
    e: EntryAt,
) -> EntriesJudged
    requires { longest_key ≤ length buffer.now }
    ensures { TakesEntry buffer.now size key.now fits rising e judged result }
{
    let search = judged.search;
    EntriesJudged {
        prefixes: judged.prefixes & fits,
        lawful: judged.lawful & key_is_lawful(buffer, size),
        rising: judged.rising & rising,
        search: past_entry(search, buffer, size, key, e),
    }
}

// The n entries from first on, behind the gap whose link's digest is at left, or 0. The page was read whole before, so that its entries need
// only be located.
pub fn judge_entries(s: &[u8], first: usize, n: usize, left: usize, key: &[u8]) -> EntriesJudged
    ensures { JudgesEntries s.now first n left key.now result }
{
    let mut buffer = [0u8; LONGEST_KEY];
    let mut size = 0;
    let mut judged = EntriesJudged {
        prefixes: true,
        lawful: true,
        rising: true,
        search: Search::On(left),
    };
    let mut at = first;
    for i in 0..n {
        let Ok(e) = locate_entry(s, at) else {
            return judged;
        };
        let shares = e.shares;
        let remainder = e.remainder;
        let length = e.size;
        let fits = prefix_fits(&buffer, size, s, shares, remainder, length);
        let rising = rises(&buffer, size, s, shares, remainder, length);
        size = extend_key(&mut buffer, size, s, shares, remainder, length);
        judged = take_entry(judged, fits, rising, &buffer, size, key, e);
        at = e.end;
    }
    judged
}
