// A record, from its word in the index.
ghost use Rattle.std.specs.Prelude.{ℕ};
ghost use Rattle.row.specs.Row.{source_of};
ghost use Rattle.row.specs.Fetch.{StartSays, FetchSays};

use page_keys::extend_key;
use page_reader::{locate_entry, read_page_start};
use word::{entry_in, is_first, page_in, size_in};

// The length of a key, which a buffer holds, and the places of its value and of what follows its entry.
#[derive(Clone, Copy, Default)]
pub struct FetchedAt {
    pub size: usize,
    pub value: usize,
    pub next: usize,
}

// Where the way to an entry begins, and the length of the key held there. It may begin at the first entry of a page, before which no key is held.
fn first_of(s: &[u8], page: usize) -> Option<(usize, usize)>
    ensures { (entry note : ℕ) → StartSays s.now page entry note result }
{
    let Ok((_, first)) = read_page_start(s, page) else {
        return None;
    };
    Some((first, 0))
}

// From the key that the note is about, where it stands before the entry in its page, or else from the first entry of the page.
fn way_to(s: &[u8], page: usize, entry: usize, note: u64) -> Option<(usize, usize)>
    ensures { StartSays s.now page entry note result }
{
    let next = entry_in(note);
    if next == 0 || page_in(note) != page || entry < next {
        return first_of(s, page);
    }
    Some((next, size_in(note)))
}

// The record whose page and entry stand at the places in the word. Its key goes into the buffer, which holds the key that the note is
// about. Where no record stands at these places, the answer says nothing: those who call know that one does.
pub fn fetch_from(s: &[u8], word: u64, buffer: &mut [u8], note: u64) -> FetchedAt
    ensures { FetchSays s.now word buffer.old note buffer.new result }
{
    let page = page_in(word);
    let entry = entry_in(word);
    let Some((first, held)) = way_to(s, page, entry, note) else {
        return FetchedAt::default();
    };
    let mut size = held;
    let mut at = first;
    // The place goes on by the length of an entry.
    while at < entry {
        let Ok(e) = locate_entry(s, at) else {
            return FetchedAt::default();
        };
        size = extend_key(buffer, size, s, e.shares, e.remainder, e.size);
        at = e.end;
    }
    let Ok(e) = locate_entry(s, at) else {
        return FetchedAt::default();
    };
    FetchedAt {
        size: extend_key(buffer, size, s, e.shares, e.remainder, e.size),
        value: e.value,
        next: e.end,
    }
}

// The record whose places are in the word, in the register that the word belongs to.
pub(crate) fn fetch_of(s: &[u8], u: &[u8], word: u64, buffer: &mut [u8], note: u64) -> FetchedAt
    ensures { FetchSays (source_of s.now u.now word) word buffer.old note buffer.new result }
{
    if is_first(word) {
        return fetch_from(s, word, buffer, note);
    }
    fetch_from(u, word, buffer, note)
}
