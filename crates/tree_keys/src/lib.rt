// The first and the last key of the tree under a filed page. The functions are for the crates above and no public calls.
#![tactic(auto)]

ghost use Rattle.std.specs.Prelude.{◌≡◌, IfSome, List, ℕ, ◌+◌, ◌*◌, ◌≤◌, ◌<◌, length, take, drop, get_or};
ghost use Rattle.limits.specs.Limits.{longest, longest_key};
ghost use Rattle.page.specs.Page.{RawPage};
ghost use Rattle.filing.specs.Filed.{page_place, Filed};
ghost use Rattle.tree_keys.specs.Ends.{PagesFiled, PagesInRow, Leads, LeadsTo, FirstSays, LastSays, tag_size, KeptKeys};
ghost use Rattle.tree_keys.specs.Inner.{place_after, OwnFirst, PageFirst, LinkWithin, LeftIs, EntriesEndWith, PageEndsWith, SameLast, TagFound, KeyKept};

use bytestring::write_bytes;
use limits::{DEEPEST, LONGEST_KEY};
use links::find_word;
use page_keys::extend_key;
use page_reader::{locate_entry, read_page, read_page_start};
use value::DIGEST;

// A page's word holds its place below this number.
pub const PLACES: u32 = 0x40_0000;

// A page link has so many bytes, and this one is the first.
const LINK: usize = 41;

const LINK_START: u8 = 0xD8;

// A page with a left link has so many bytes at least.
const LEAST_WITH_LEFT: usize = 47;

// A page with more entries is long.
const LONG: usize = 64;

// A tag is so many times the number of its page, counted from 1, plus the length of the key.
const TAG: usize = 512;

// Where a key stands in the sequence.
#[derive(Clone, Copy)]
pub struct KeyAt {
    pub place: usize,
    pub size: usize,
}

// The length of a page's last own key, and the place of the digest of the link after it, or 0: no digest stands at the first byte of a sequence.
#[derive(Clone, Copy)]
struct OwnEnd {
    size: usize,
    link: usize,
}

// No key: an empty one at the first byte. No Option says so, since by its contract `first_key` answers a place in the sequence in any case.
const NO_KEY: KeyAt = KeyAt { place: 0, size: 0 };

// No end: neither a key nor a link.
const NO_END: OwnEnd = OwnEnd { size: 0, link: 0 };

// The place in the word of a page.
pub fn word_place(word: u32) -> usize
    ensures { result ≡ page_place word }
{
    (word % PLACES) as usize
}

// Where the i-th page ends: where the next begins, and the last at the end of the sequence.
fn place_after(sequence: &[u8], pages: &[u32], n: usize, i: usize) -> usize
    requires { (i < n) × (n ≤ length pages.now) }
    ensures { result ≡ place_after sequence.now pages.now n i }
{
    if i + 1 < n {
        return word_place(pages[i + 1]);
    }
    sequence.len()
}

// The place of the digest of the left link of the page at a place, or 0: no digest stands at the first byte of a sequence.
fn read_left(sequence: &[u8], at: usize) -> usize
    ensures { (end : ℕ) → LeftIs sequence.now at end result }
{
    let Ok(p) = read_page(sequence, at) else {
        return 0;
    };
    p.left
}

// The same of the page that stands between two places. The link ends the page, so that no entries are passed. Where there is none, the value of
// the last entry ends three bytes before the page does, so that its fourth byte stands where a link would begin.
fn left_link(sequence: &[u8], at: usize, end: usize) -> usize
    requires { (at ≤ end) × (end ≤ length sequence.now) }
    ensures { LeftIs sequence.now at end result }
{
    if end - at < LEAST_WITH_LEFT {
        return 0;
    }
    if sequence[end - LINK] == LINK_START {
        return end - DIGEST;
    }
    0
}

// The number of the page whose digest stands at the place of a link. What filed pages are known by is passed part by part, here and below: the
// contracts name each part.
pub fn linked_page(states: &[u8], sequence: &[u8], labels: &[u32], n: usize, link: usize) -> usize
    requires { Leads states.now sequence.now labels.now n link }
    ensures { LeadsTo states.now sequence.now labels.now n link result }
{
    let chains = [0u64; 0];
    find_word(states, sequence, &chains, labels, n, link as u32)
}

// The key of the first of the entries from a place on.
fn own_first(sequence: &[u8], first: usize, count: usize) -> KeyAt
    ensures { OwnFirst sequence.now first count result }
{
    if count == 0 {
        return NO_KEY;
    }
    let Ok(e) = locate_entry(sequence, first) else {
        return NO_KEY;
    };
    KeyAt {
        place: e.remainder,
        size: e.size,
    }
}

// The same of the page at a place.
fn page_first(sequence: &[u8], at: usize) -> KeyAt
    ensures { PageFirst sequence.now at result }
{
    let Ok((count, first)) = read_page_start(sequence, at) else {
        return NO_KEY;
    };
    own_first(sequence, first, count)
}

// The first key of the tree under the i-th page: left links lead to the page that it stands in.
pub fn first_key(
    states: &[u8],
    sequence: &[u8],
    labels: &[u32],
    pages: &[u32],
    n: usize,
    i: usize,
) -> KeyAt
    requires { PagesFiled states.now sequence.now labels.now pages.now n × (i < n) }
    ensures { FirstSays states.now sequence.now labels.now pages.now n i result }
{
    let mut c = i;
    for steps in 0..DEEPEST {
        let at = word_place(pages[c]);
        let left = read_left(sequence, at);
        if left == 0 {
            return page_first(sequence, at);
        }
        c = linked_page(states, sequence, labels, n, left);
    }
    NO_KEY
}

// The same where the pages stand in a row, so that their ends are known: no entries are passed on the way.
pub fn first_key_by_ends(
    states: &[u8],
    sequence: &[u8],
    labels: &[u32],
    pages: &[u32],
    n: usize,
    i: usize,
) -> KeyAt
    requires { PagesInRow states.now sequence.now labels.now pages.now n × (i < n) }
    ensures { FirstSays states.now sequence.now labels.now pages.now n i result }
{
    let mut c = i;
    for steps in 0..DEEPEST {
        let at = word_place(pages[c]);
        let end = place_after(sequence, pages, n, c);
        let left = left_link(sequence, at, end);
        if left == 0 {
            return page_first(sequence, at);
        }
        c = linked_page(states, sequence, labels, n, left);
    }
    NO_KEY
}

// Spells the key of the last of the entries from a place on. The page was read before, so that its entries need only be located.
fn spell_last(sequence: &[u8], first: usize, count: usize, left: usize, last: &mut [u8]) -> OwnEnd
    requires { LinkWithin sequence.now left × (length last.old ≡ longest_key) }
    ensures within { LinkWithin sequence.now result.link }
    ensures says { EntriesEndWith sequence.now first count left last.new result }
{
    let mut size = 0;
    let mut link = left;
    let mut at = first;
    for j in 0..count {
        let Ok(e) = locate_entry(sequence, at) else {
            return NO_END;
        };
        size = extend_key(last, size, sequence, e.shares, e.remainder, e.size);
        link = e.link;
        at = e.end;
    }
    OwnEnd { size, link }
}

// The same of the page at a place. The left link matters only where no entries are.
fn walk_last(sequence: &[u8], at: usize, last: &mut [u8]) -> OwnEnd
    requires { length last.old ≡ longest_key }
    ensures within { LinkWithin sequence.now result.link }
    ensures says { PageEndsWith sequence.now at last.new result }
{
    let Ok((count, first)) = read_page_start(sequence, at) else {
        return NO_END;
    };
    if 0 < count {
        return spell_last(sequence, first, count, 0, last);
    }
    let left = read_left(sequence, at);
    spell_last(sequence, first, count, left, last)
}

// The last key of the tree under the i-th page: last links lead to the page that it stands in.
pub fn last_key(
    states: &[u8],
    sequence: &[u8],
    labels: &[u32],
    pages: &[u32],
    n: usize,
    i: usize,
    last: &mut [u8],
) -> usize
    requires { PagesFiled states.now sequence.now labels.now pages.now n × (i < n) × (length last.old ≡ longest_key) }
    ensures short { result ≤ longest_key }
    ensures says { LastSays states.now sequence.now labels.now pages.now n i last.new result }
{
    let mut c = i;
    for steps in 0..DEEPEST {
        let at = word_place(pages[c]);
        let end = walk_last(sequence, at, last);
        let link = end.link;
        if link == 0 {
            return end.size.min(LONGEST_KEY);
        }
        c = linked_page(states, sequence, labels, n, link);
    }
    0
}

// Whether the page at a place has many entries.
fn is_long(sequence: &[u8], at: usize) -> bool {
    let Ok((count, _)) = read_page_start(sequence, at) else {
        return false;
    };
    LONG < count
}

// From the i-th page last links lead to a long page, or to the page that the last key stands in.
fn long_page(
    states: &[u8],
    sequence: &[u8],
    labels: &[u32],
    pages: &[u32],
    n: usize,
    i: usize,
    last: &mut [u8],
) -> usize
    requires { PagesFiled states.now sequence.now labels.now pages.now n × (i < n) × (length last.old ≡ longest_key) }
    ensures number { result < n }
    ensures same { (raws : List RawPage) → Filed states.now sequence.now labels.now pages.now n raws → SameLast raws i result 0 }
{
    let mut c = i;
    for steps in 0..DEEPEST {
        let at = word_place(pages[c]);
        if is_long(sequence, at) {
            return c;
        }
        let end = walk_last(sequence, at, last);
        let link = end.link;
        if link == 0 {
            return c;
        }
        c = linked_page(states, sequence, labels, n, link);
    }
    c
}

// The number of a tag of the i-th page.
fn find_tag(tags: &[u32], i: usize) -> Option<usize>
    requires { i < longest }
    ensures { IfSome result (λ k. TagFound tags.now i k) }
{
    tags.iter().position(|tag| *tag as usize / TAG == i + 1)
}

// Copies the key with the k-th tag. Its length.
fn take_kept(keys: &[u8], tags: &[u32], k: usize, last: &mut [u8]) -> usize
    requires { (longest_key * length tags.now ≤ length keys.now) × (k < length tags.now) × (tag_size (get_or tags.now k 0) ≤ longest_key) × (length last.old ≡ longest_key) }
    ensures size { result ≡ tag_size (get_or tags.now k 0) }
    ensures key { take result last.new ≡ take result (drop (longest_key * k) keys.now) }
{
    let size = tags[k] as usize % TAG;
    let from = LONGEST_KEY * k;
    let to = from + size;
    write_bytes(last, &keys[from..to]);
    size
}

// In whose place the next key is kept: the last tag says it.
fn turn_of(tags: &[u32]) -> usize
    requires { 2 ≤ length tags.now }
    ensures { result + 1 < length tags.now }
{
    let end = tags.len() - 1;
    tags[end] as usize % end
}

// Keeps the last key of the tree under the i-th page.
fn keep_key(keys: &mut [u8], tags: &mut [u32], i: usize, last: &[u8], size: usize)
    requires { (longest_key * length tags.old ≤ length keys.old) × (2 ≤ length tags.old) × (i < longest) × (length last.now ≡ longest_key) × (size ≤ longest_key) }
    ensures { KeyKept keys.old tags.old i last.now size keys.new tags.new }
{
    let end = tags.len() - 1;
    let turn = turn_of(tags);
    let from = LONGEST_KEY * turn;
    let to = from + LONGEST_KEY;
    write_bytes(&mut keys[from..to], last);
    tags[turn] = (TAG * (i + 1) + size) as u32;
    tags[end] = ((turn + 1) % LONGEST_KEY) as u32;
}

// The last key of the tree under the i-th page, and its length. Where long pages are walked for it, it is kept, and taken from there the next
// time: else a long page would be walked for each page that links to it.
pub fn kept_last_key(
    states: &[u8],
    sequence: &[u8],
    labels: &[u32],
    pages: &[u32],
    n: usize,
    i: usize,
    keys: &mut [u8],
    tags: &mut [u32],
    last: &mut [u8],
) -> usize
    requires { ((raws : List RawPage) × Filed states.now sequence.now labels.now pages.now n raws × KeptKeys raws n keys.old tags.old) × (i < n) × (2 ≤ length tags.old) × (length last.old ≡ longest_key) }
    ensures short { result ≤ longest_key }
    ensures says { LastSays states.now sequence.now labels.now pages.now n i last.new result }
    ensures keeps { (raws : List RawPage) → Filed states.now sequence.now labels.now pages.now n raws → KeptKeys raws n keys.old tags.old → KeptKeys raws n keys.new tags.new }
{
    let c = long_page(states, sequence, labels, pages, n, i, last);
    if let Some(k) = find_tag(tags, c) {
        return take_kept(keys, tags, k, last);
    }
    let size = last_key(states, sequence, labels, pages, n, c, last);
    if is_long(sequence, word_place(pages[c])) {
        keep_key(keys, tags, c, last, size);
    }
    size
}
