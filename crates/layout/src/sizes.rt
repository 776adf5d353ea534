// The length of a page, before it is written.
ghost use Rattle.std.specs.Prelude.{◌≡◌, ◌<◌, get_or};
ghost use Rattle.word.specs.Word.{layer_in};
ghost use Rattle.row.specs.Memory.{Remembers};
ghost use Rattle.layout.specs.Build.{record_in, entries_at};
ghost use Rattle.layout.specs.Layout.{Ready, EntriesSized, Sized};

use crate::records::{hold, length_after};
use crate::runs::{count_entries, has_page, run_end};
use limits::LONGEST_KEY;
use page_writer::{page_end_length, page_start_length};
use row::recall::recall;

// A page's length, the number of its entries, and the position of the first of them, which is the end of its records where it has none.
#[derive(Clone, Copy)]
pub struct Size {
    pub own: usize,
    pub count: usize,
    pub first: usize,
}

// The length of the entries of a page of this layer, from its first one on.
fn measure_entries(
    s: &[u8],
    u: &[u8],
    row: &[u64],
    first: usize,
    hi: usize,
    layer: usize,
    keys: &mut [u8],
    notes: &mut [u64],
) -> usize
    requires { Ready s.now u.now row.now keys.old notes.old first hi × (first < hi → layer_in (get_or row.now first 0) ≡ layer) }
    ensures size { EntriesSized (entries_at layer (record_in s.now u.now row.now) first hi) result }
    ensures memory { Remembers s.now u.now keys.new notes.new }
{
    let mut previous = [0u8; LONGEST_KEY];
    let mut held = 0;
    let mut len = 0;
    let mut i = first;
    // The position moves from entry to entry.
    while i < hi {
        let next = run_end(row, i + 1, hi, layer);
        let linked = has_page(i + 1, next, layer);
        let found = recall(s, u, row[i], 0, keys, notes);
        let from = found.from;
        let size = found.size;
        len += length_after(&previous[..held], keys, from, size, linked);
        hold(&mut previous, keys, from, size);
        held = size;
        i = next;
    }
    len
}

// The page of lo..hi. One of layer 0 has nothing below it and is not measured: it may take all the room that there is.
pub fn measure(
    s: &[u8],
    u: &[u8],
    row: &[u64],
    lo: usize,
    hi: usize,
    layer: usize,
    keys: &mut [u8],
    notes: &mut [u64],
    room: usize,
) -> Size
    requires { Ready s.now u.now row.now keys.old notes.old lo hi }
    ensures size { Sized s.now u.now row.now lo hi layer room result }
    ensures memory { Remembers s.now u.now keys.new notes.new }
{
    let first = run_end(row, lo, hi, layer);
    let count = count_entries(row, first, hi, layer);
    let ends = page_start_length(count) + page_end_length(has_page(lo, first, layer));
    if layer == 0 {
        return Size {
            own: room.max(ends),
            count,
            first,
        };
    }
    let len = measure_entries(s, u, row, first, hi, layer, keys, notes);
    Size {
        own: ends + len,
        count,
        first,
    }
}
