// The trees under filed pages, each page judged once: a page is judged from what is known of the pages that it links to. The functions are
// for the crates above and no public calls.
#![tactic(auto)]

ghost use Rattle.std.specs.Prelude.{◌≡◌, true, List, ◌^◌, ◌≤◌, ◌<◌, length};
ghost use Rattle.limits.specs.Limits.{deepest, longest_key, most};
ghost use Rattle.page.specs.Page.{RawPage};
ghost use Rattle.tree_keys.specs.Ends.{PagesFiled, KeptKeys};
ghost use Rattle.summing.specs.Summed.{page_note, Summings, RootSays};
ghost use Rattle.summing.specs.Inner.{raws_in, SameSlices, UnderwayIn, GapAskedIn, GapToldIn, EntriesAskedIn, EntriesToldIn, TreeSaysIn, KeyHolds, KeyAsked, KeySays, FirstFollows, PageNoted};

use bytestring::write_bytes;
use key_calls::layers::layer_of;
use limits::{DEEPEST, LONGEST_KEY, MOST};
use page_keys::{extend_key, key_is_lawful, key_rises, prefix_fits};
use page_reader::{EntryAt, locate_entry, read_page};
use tree_keys::{PLACES, first_key, kept_last_key, linked_page, word_place};

// A page's word has a note below this number above its place, and its mark above the note.
const NOTES: u32 = 256;

const MARKS: u32 = 0x4000_0000;

// The note of the empty page as a root.
const ALONE: usize = 130;

// Prefix lengths are tested below the length of the buffer, and a key may share all 256 bytes of the key before it: so one byte more.
const ROOM: usize = 257;

// A part of a page, so far: the count of its records, and the length of its last key.
#[derive(Clone, Copy)]
pub struct PartSum {
    pub count: usize,
    pub size: usize,
}

// What stays as it is while the trees under a root are judged: the sequence of the filed pages, the states before it, the words of the links to
// the n pages, and the mark of what the root reaches.
#[derive(Clone, Copy)]
struct Judging<'a> {
    states: &'a [u8],
    sequence: &'a [u8],
    labels: &'a [u32],
    n: usize,
    mark: u32,
}

// What is written meanwhile: the counts of records beside the pages' words, the last keys that are kept and their tags, and the last key. The
// words of the pages are lent beside it: they are read while keys, tags and the last key are lent.
#[derive(Drop)]
struct Written<'a> {
    counts: &'a mut [u16],
    keys: &'a mut [u8],
    tags: &'a mut [u32],
    last: &'a mut [u8],
}

// The note in the word of a page.
pub fn word_note(word: u32) -> usize
    ensures { result ≡ page_note word }
{
    (word / PLACES % NOTES) as usize
}

// Writes the word and the count of the i-th page.
fn note_page(
    pages: &mut [u32],
    counts: &mut [u16],
    i: usize,
    place: usize,
    note: usize,
    mark: u32,
    count: usize,
)
    requires { (i < length pages.old) × (i < length counts.old) × (place < 2 ^ 22) × (note < 2 ^ 8) × (mark < 2) × (count ≤ most) }
    ensures { PageNoted pages.old counts.old i place note mark count pages.new counts.new }
{
    pages[i] = place as u32 + note as u32 * PLACES + mark * MARKS;
    counts[i] = count as u16;
}

// Whether the key in a buffer keeps the key rule, has the layer, and comes after the last key so far.
fn key_holds(buffer: &[u8], size: usize, last: &[u8], before: usize, layer: usize) -> bool
    requires { longest_key ≤ length buffer.now }
    ensures says { KeyHolds buffer.now size last.now before layer result }
    ensures short { result ≡ true → size ≤ longest_key }
{
    if LONGEST_KEY < size {
        return false;
    }
    if !key_is_lawful(buffer, size) {
        return false;
    }
    if layer_of(&buffer[..size]) as usize != layer {
        return false;
    }
    key_rises(last, before, buffer, size)
}

// The key that the entry e spells after the key in the buffer becomes the key in the buffer and the last key, where its prefix length is
// right and the tests hold. Its length.
fn take_key(
    buffer: &mut [u8],
    size: usize,
    sequence: &[u8],
    e: EntryAt,
    last: &mut [u8],
    before: usize,
    layer: usize,
) -> Option<usize>
    requires { KeyAsked buffer.old sequence.now e last.old }
    ensures { KeySays buffer.old size sequence.now e last.old before layer result buffer.new last.new }
{
    let shares = e.shares;
    let at = e.remainder;
    let length = e.size;
    if !prefix_fits(buffer, size, sequence, shares, at, length) {
        return None;
    }
    let new = extend_key(buffer, size, sequence, shares, at, length);
    if !key_holds(buffer, new, last, before, layer) {
        return None;
    }
    write_bytes(last, &buffer[..new]);
    Some(new)
}

// Whether the first key of the tree under the c-th page comes after the key before it; there is none where its length is 0.
fn first_follows(judging: &Judging, pages: &[u32], c: usize, before: &[u8], size: usize) -> bool
    requires { PagesFiled judging.now.states.now judging.now.sequence.now judging.now.labels.now pages.now judging.now.n × (c < judging.now.n) × (length judging.now.sequence.now < 2 ^ 24) }
    ensures { FirstFollows judging.now.states.now judging.now.sequence.now judging.now.labels.now pages.now judging.now.n c before.now size result }
{
    if size == 0 {
        return true;
    }
    let key = first_key(
        judging.states,
        judging.sequence,
        judging.labels,
        pages,
        judging.n,
        c,
    );
    let from = key.place;
    let length = key.size;
    let to = from + length;
    key_rises(before, size, &judging.sequence[from..to], length)
}

// The tree under the link at a place, or none at place 0. The key before it in its page, if there is one, is the last key so far too; the
// tree's pages take `last` for their own keys, so that it is set anew behind them.
#[cycle(judge_entries_judge_gap_judge_tree)]
fn judge_gap(
    judging: &Judging,
    pages: &mut [u32],
    written: &mut Written,
    before: &[u8],
    size: usize,
    link: usize,
    count: usize,
    layer: usize,
) -> Option<PartSum>
    requires { UnderwayIn judging.now pages.old written.old × GapAskedIn judging.now before.now written.old size link count layer }
    ensures told { GapToldIn judging.now pages.old written.old size link count layer result pages.new written.new }
    ensures same { SameSlices written.old written.new }
{
    if link == 0 {
        return Some(PartSum { count, size });
    }
    if layer == 0 {
        return None;
    }
    let c = linked_page(
        judging.states,
        judging.sequence,
        judging.labels,
        judging.n,
        link,
    );
    if !judge_tree(judging, pages, written, c, layer - 1) {
        return None;
    }
    if !first_follows(judging, pages, c, before, size) {
        return None;
    }
    let sum = count + usize::from(written.counts[c]);
    if MOST < sum {
        return None;
    }
    let length = kept_last_key(
        judging.states,
        judging.sequence,
        judging.labels,
        pages,
        judging.n,
        c,
        written.keys,
        written.tags,
        written.last,
    );
    Some(PartSum {
        count: sum,
        size: length,
    })
}

// The entries of a page from first on, and the trees after them.
#[cycle(judge_entries_judge_gap_judge_tree)]
fn judge_entries(
    judging: &Judging,
    pages: &mut [u32],
    written: &mut Written,
    first: usize,
    entries: usize,
    start: PartSum,
    layer: usize,
) -> Option<PartSum>
    requires { UnderwayIn judging.now pages.old written.old × EntriesAskedIn judging.now first entries start.count layer }
    ensures told { EntriesToldIn judging.now pages.old written.old start.size first entries start.count layer result pages.new written.new }
    ensures same { SameSlices written.old written.new }
{
    let mut buffer = [0u8; ROOM];
    let mut size = 0;
    let mut cur = start;
    let mut at = first;
    for i in 0..entries {
        let Ok(e) = locate_entry(judging.sequence, at) else {
            return None;
        };
        let link = e.link;
        let count = cur.count;
        if MOST <= count {
            return None;
        }
        size = take_key(
            &mut buffer,
            size,
            judging.sequence,
            e,
            written.last,
            cur.size,
            layer,
        )?;
        at = e.end;
        cur = judge_gap(
            judging,
            pages,
            written,
            &buffer,
            size,
            link,
            count + 1,
            layer,
        )?;
    }
    Some(cur)
}

// Whether the tree under the i-th page has a summary of this layer. Each page is judged once: a page that was judged has its layer in its
// word and its count beside it.
#[cycle(judge_entries_judge_gap_judge_tree)]
fn judge_tree(
    judging: &Judging,
    pages: &mut [u32],
    written: &mut Written,
    i: usize,
    layer: usize,
) -> bool
    requires { UnderwayIn judging.now pages.old written.old × (i < judging.now.n) × (layer < deepest) × (judging.now.mark < 2) }
    ensures says { TreeSaysIn judging.now pages.old written.old i layer result pages.new written.new }
    ensures keeps { result ≡ true → KeptKeys (raws_in judging.now.sequence.now) judging.now.n written.new.keys.now written.new.tags.now }
    ensures same { SameSlices written.old written.new }
{
    let word = pages[i];
    let place = word_place(word);
    let note = word_note(word);
    if 0 < note && note <= DEEPEST {
        return note == layer + 1;
    }
    let Ok(p) = read_page(judging.sequence, place) else {
        return false;
    };
    let left = p.left;
    let first = p.first;
    let entries = p.count;
    if entries == 0 && left == 0 {
        return false;
    }
    let Some(start) = judge_gap(judging, pages, written, judging.states, 0, left, 0, layer) else {
        return false;
    };
    let Some(sum) = judge_entries(judging, pages, written, first, entries, start, layer) else {
        return false;
    };
    note_page(
        pages,
        written.counts,
        i,
        place,
        layer + 1,
        judging.mark,
        sum.count,
    );
    true
}

// Whether the i-th page is the root of an accepted register: the layer of its tree is that of its first key.
pub fn judge_root(
    states: &[u8],
    sequence: &[u8],
    labels: &[u32],
    n: usize,
    pages: &mut [u32],
    counts: &mut [u16],
    keys: &mut [u8],
    tags: &mut [u32],
    last: &mut [u8],
    i: usize,
    mark: u32,
) -> bool
    requires { ((raws : List RawPage) × Summings states.now sequence.now labels.now pages.old counts.old n raws × KeptKeys raws n keys.old tags.old) × (i < n) × (mark < 2) × (2 ≤ length tags.old) × (length last.old ≡ longest_key) }
    ensures says { RootSays states.now sequence.now labels.now pages.old counts.old n i mark result pages.new counts.new }
    ensures keeps { (raws : List RawPage) → Summings states.now sequence.now labels.now pages.old counts.old n raws → result ≡ true → KeptKeys raws n keys.new tags.new }
{
    let word = pages[i];
    let place = word_place(word);
    let note = word_note(word);
    let Ok(p) = read_page(sequence, place) else {
        return false;
    };
    let first = p.first;
    if p.count == 0 {
        if p.left != 0 {
            return false;
        }
        if note == 0 {
            note_page(pages, counts, i, place, ALONE, mark, 0);
        }
        return true;
    }
    if 0 < note {
        return true;
    }
    let Ok(e) = locate_entry(sequence, first) else {
        return false;
    };
    let from = e.remainder;
    let size = e.size;
    if LONGEST_KEY < size {
        return false;
    }
    let to = from + size;
    let layer = layer_of(&sequence[from..to]) as usize;
    let judging = Judging {
        states,
        sequence,
        labels,
        n,
        mark,
    };
    let mut written = Written {
        counts,
        keys,
        tags,
        last,
    };
    judge_tree(&judging, pages, &mut written, i, layer)
}
