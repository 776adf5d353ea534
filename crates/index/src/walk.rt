// The walk over a register's pages.
ghost use Rattle.std.specs.Prelude.{◌≡◌, cond, ◌+◌, ◌-◌, ◌^◌, ◌≤◌, ◌<◌, length, eqb};
ghost use Rattle.limits.specs.Limits.{deepest, longest_key};
ghost use Rattle.bytestring.specs.Bytes.{Bytes};
ghost use Rattle.index.specs.Walk.{page_holds, ChainNoted, Taken, PageTaken, Entered, PageSays, EntriesSay, WalkSays};

use crate::words::{note, note_chain};
use limits::{DEEPEST, LONGEST_KEY};
use page_keys::{extend_key, key_is_lawful, key_rises, prefix_fits, remember};
use page_reader::{PageAt, Stop, locate_entry, read_page};

// Where the walk stands: the next byte, the records and the chains so far, the length of the last key, and whether each test held so far.
#[derive(Clone, Copy)]
pub struct WalkState {
    pub next: usize,
    pub count: usize,
    pub chains: usize,
    pub last: usize,
    pub prefixes: bool,
    pub lawful: bool,
    pub rising: bool,
    pub filled: bool,
}

// Whether a page may stand where it stands: a linked page has an entry or a left link, the root an entry or no left link.
fn page_holds(link: usize, count: usize, left: usize) -> bool
    ensures { result ≡ page_holds link count left }
{
    if 0 < count {
        return true;
    }
    if link == 0 {
        return left == 0;
    }
    0 < left
}

// One record more: its tests, its word in the index, and its key as the last key.
fn take_record(
    index: &mut [u64],
    last: &mut [u8],
    buffer: &[u8],
    size: usize,
    fits: bool,
    st: WalkState,
    level: usize,
    page: usize,
    at: usize,
) -> WalkState
    requires { (length buffer.now ≡ longest_key) × (length last.old ≡ longest_key) × (page < 2 ^ 24) × (at < 2 ^ 24) × (level < 256) × (st.count < 2 ^ 32) }
    ensures { Taken index.old last.old level page at buffer.now size fits st result index.new last.new }
{
    let lawful = key_is_lawful(buffer, size);
    let rising = key_rises(last, st.last, buffer, size);
    let k = st.count;
    note(index, k, page, at, level);
    remember(last, buffer, size);
    WalkState {
        count: k + 1,
        last: size,
        prefixes: st.prefixes & fits,
        lawful: st.lawful & lawful,
        rising: st.rising & rising,
        ..st
    }
}

// The test of a page as a whole, and where its subtrees begin.
fn take_page(link: usize, p: PageAt, st: WalkState) -> WalkState
    ensures { PageTaken link p st result }
{
    let holds = page_holds(link, p.count, p.left);
    WalkState {
        next: p.end,
        filled: st.filled & holds,
        ..st
    }
}

// One chain more.
fn enter(st: WalkState) -> WalkState
    requires { st.chains < 2 ^ 32 }
    ensures { Entered st result }
{
    WalkState {
        chains: st.chains + 1,
        ..st
    }
}

// The first link of the chain that the page below a page without entries belongs to. The root is in no chain but its own.
fn chain_link(link: usize, left: usize) -> usize
    ensures { result ≡ cond (eqb link 0) left link }
{
    if link == 0 {
        return left;
    }
    link
}

// How many pages of that chain are above the page.
fn chain_above(link: usize, above: usize) -> usize
    requires { above < 256 }
    ensures { result ≡ cond (eqb link 0) 0 (above + 1) }
{
    if link == 0 {
        return 0;
    }
    above + 1
}

// The chain is noted when the walk has gone through all that is below it: so many records and chains more.
fn leave(
    row: &mut [u64],
    k: usize,
    page: usize,
    link: usize,
    above: usize,
    end: usize,
    from: usize,
    st: WalkState,
)
    requires { (page < 2 ^ 24) × (link < 2 ^ 24) × (above < 256) × (end < 2 ^ 24) × (k < 2 ^ 32) × (from ≤ st.count) × (k < st.chains) }
    ensures { ChainNoted row.old k page link above end from (st.count - from) (st.chains - (k + 1)) row.new }
{
    let records = st.count - from;
    let below = st.chains - (k + 1);
    note_chain(row, k, page, link, above, end, from, records, below);
}

// The page at st.next, level pages below the root, and all pages below it. The link at the place link (0 for the root) leads to the first
// page of its chain, in which so many pages are above it.
#[cycle(walk_entries_walk_page)]
fn walk_page(
    s: &[u8],
    index: &mut [u64],
    row: &mut [u64],
    last: &mut [u8],
    level: usize,
    link: usize,
    above: usize,
    st: WalkState,
) -> Result<WalkState, Stop>
    requires { (length s.now < 2 ^ 24) × Bytes s.now × (length last.old ≡ longest_key) × (st.next ≤ length s.now) × (st.count ≤ st.next) × (st.chains ≤ st.next) × (level ≤ deepest) × (above ≤ level) × (link ≤ length s.now) }
    ensures { PageSays s.now index.old row.old last.old level link above st result index.new row.new last.new }
{
    let at = st.next;
    if DEEPEST <= level {
        if at < s.len() {
            return Err(Stop::Departs);
        }
        return Err(Stop::EndsEarly);
    }
    let p = read_page(s, at)?;
    let n = p.count;
    let first = p.first;
    let left = p.left;
    let end = p.end;
    let cur = take_page(link, p, st);
    if n == 0 {
        if left == 0 {
            return Ok(cur);
        }
        let to = chain_link(link, left);
        let pages = chain_above(link, above);
        return walk_page(s, index, row, last, level + 1, to, pages, cur);
    }
    let from = cur.count;
    let k = cur.chains;
    let entered = enter(cur);
    if left == 0 {
        let walked = walk_entries(s, index, row, last, level, at, first, n, entered)?;
        leave(row, k, at, link, above, end, from, walked);
        return Ok(walked);
    }
    let next = walk_page(s, index, row, last, level + 1, left, 0, entered)?;
    let walked = walk_entries(s, index, row, last, level, at, first, n, next)?;
    leave(row, k, at, link, above, end, from, walked);
    Ok(walked)
}

// The n entries from first on in the page at the place page, and all pages below them. The page was read whole before, so that its entries
// need only be located.
#[cycle(walk_entries_walk_page)]
fn walk_entries(
    s: &[u8],
    index: &mut [u64],
    row: &mut [u64],
    last: &mut [u8],
    level: usize,
    page: usize,
    first: usize,
    n: usize,
    st: WalkState,
) -> Result<WalkState, Stop>
    requires { (length s.now < 2 ^ 24) × Bytes s.now × (length last.old ≡ longest_key) × (st.next ≤ length s.now) × (st.count + n ≤ st.next) × (st.chains ≤ st.next) × (level < deepest) × (page ≤ length s.now) × (first ≤ length s.now) }
    ensures { EntriesSay s.now index.old row.old last.old level page first n st result index.new row.new last.new }
{
    let mut buffer = [0u8; LONGEST_KEY];
    let mut size = 0;
    let mut cur = st;
    let mut at = first;
    for i in 0..n {
        let e = locate_entry(s, at)?;
        let link = e.link;
        let shares = e.shares;
        let remainder = e.remainder;
        let length = e.size;
        let fits = prefix_fits(&buffer, size, s, shares, remainder, length);
        size = extend_key(&mut buffer, size, s, shares, remainder, length);
        let one = take_record(index, last, &buffer, size, fits, cur, level, page, at);
        at = e.end;
        if link == 0 {
            cur = one;
            continue;
        }
        let next = walk_page(s, index, row, last, level + 1, link, 0, one)?;
        cur = next;
    }
    Ok(cur)
}

// The walk over a whole register: the tests, and the rows of its records and of its chains, as many as there is room for.
pub fn walk(s: &[u8], index: &mut [u64], row: &mut [u64]) -> Result<WalkState, Stop>
    requires { length s.now < 2 ^ 24 }
    ensures { WalkSays s.now result index.new row.new }
{
    let mut last = [0u8; LONGEST_KEY];
    let st = WalkState {
        next: 0,
        count: 0,
        chains: 0,
        last: 0,
        prefixes: true,
        lawful: true,
        rising: true,
        filled: true,
    };
    walk_page(s, index, row, &mut last, 0, 0, 0, st)
}
