// The recursion over the pages of a table.
ghost use Rattle.std.specs.Prelude.{◌≡◌, ◌≤◌, ◌<◌, length, get_or};
ghost use Rattle.word.specs.Word.{layer_in};
ghost use Rattle.row.specs.Memory.{Remembers};
ghost use Rattle.labels.specs.Label.{EachLabelled};
ghost use Rattle.layout.specs.Build.{record_in, entries_at};
ghost use Rattle.layout.specs.Layout.{Ready};
ghost use Rattle.writer.specs.Wrote.{page_at, gap_at, Written, below_of, GapWritten, EntriesWritten};

use labels::page_digest;
use layout::records::write_record;
use layout::runs::{has_page, run_end};
use layout::sizes::measure;
use limits::LONGEST_KEY;
use page_writer::{page_end_length, write_page_end, write_page_start};
use value::Digest;

// The lengths of a table and of its first page, and the position in the row of that page's first entry, which is the end of its records where
// it has no entries.
#[derive(Clone, Copy)]
pub struct Wrote {
    pub len: usize,
    pub own: usize,
    pub first: usize,
}

// Of a gap: the length of the table below it, and the digest of its page, if it has one.
#[derive(Clone, Copy)]
struct Below {
    len: usize,
    link: Option<Digest>,
}

// Where a page's entries end in the output, and the length of the tables below them.
#[derive(Clone, Copy)]
struct Laid {
    at: usize,
    below: usize,
}

// The entries of a page of this layer, from its first one on, from the place `start` to before `limit`, and the tables below them from the
// place `behind` on. Each table is written into what remains after those before it, and before the entry that links to it.
#[cycle(write_below_write_entries_write_page)]
fn write_entries(
    s: &[u8],
    u: &[u8],
    first_chains: &[u64],
    second_chains: &[u64],
    row: &[u64],
    first: usize,
    hi: usize,
    layer: usize,
    keys: &mut [u8],
    notes: &mut [u64],
    out: &mut [u8],
    start: usize,
    limit: usize,
    behind: usize,
) -> Option<Laid>
    requires { Ready s.now u.now row.now keys.old notes.old first hi × EachLabelled s.now first_chains.now × EachLabelled u.now second_chains.now × (first < hi → layer_in (get_or row.now first 0) ≡ layer) × (start ≤ limit) × (limit ≤ behind) × (behind ≤ length out.old) }
    ensures entries { EntriesWritten (entries_at layer (record_in s.now u.now row.now) first hi) start limit behind out.old out.new result }
    ensures memory { Remembers s.now u.now keys.new notes.new }
{
    let mut at = start;
    let mut tail = behind;
    let mut previous = [0u8; LONGEST_KEY];
    let mut held = 0;
    let mut i = first;
    // The position moves from entry to entry.
    while i < hi {
        let next = run_end(row, i + 1, hi, layer);
        let w = write_below(
            s,
            u,
            first_chains,
            second_chains,
            row,
            i + 1,
            next,
            layer,
            keys,
            notes,
            &mut out[tail..],
        )?;
        let added = write_record(
            s,
            u,
            row[i],
            keys,
            notes,
            &mut previous,
            held,
            w.link,
            &mut out[at..limit],
        )?;
        at += added.len;
        held = added.held;
        tail += w.len;
        i = next;
    }
    Some(Laid {
        at,
        below: tail - behind,
    })
}

// The page of lo..hi at the front of out, and behind it the pages below.
#[cycle(write_below_write_entries_write_page)]
pub fn write_page(
    s: &[u8],
    u: &[u8],
    first_chains: &[u64],
    second_chains: &[u64],
    row: &[u64],
    lo: usize,
    hi: usize,
    layer: usize,
    keys: &mut [u8],
    notes: &mut [u64],
    out: &mut [u8],
) -> Option<Wrote>
    requires { Ready s.now u.now row.now keys.old notes.old lo hi × EachLabelled s.now first_chains.now × EachLabelled u.now second_chains.now }
    ensures table { Written (page_at s.now u.now row.now lo hi layer) out.old out.new result }
    ensures memory { Remembers s.now u.now keys.new notes.new }
{
    let size = measure(s, u, row, lo, hi, layer, keys, notes, out.len());
    let own = size.own;
    let first = size.first;
    if out.len() < own {
        return None;
    }
    let left = write_below(
        s,
        u,
        first_chains,
        second_chains,
        row,
        lo,
        first,
        layer,
        keys,
        notes,
        &mut out[own..],
    )?;
    let start = write_page_start(out, size.count);
    let laid = write_entries(
        s,
        u,
        first_chains,
        second_chains,
        row,
        first,
        hi,
        layer,
        keys,
        notes,
        out,
        start,
        own - page_end_length(left.link.is_some()),
        own + left.len,
    )?;
    let at = laid.at;
    let page = at + write_page_end(&mut out[at..], left.link);
    Some(Wrote {
        len: page + left.len + laid.below,
        own: page,
        first,
    })
}

// What a gap has where this page was written into it.
fn below_of(
    s: &[u8],
    u: &[u8],
    first_chains: &[u64],
    second_chains: &[u64],
    row: &[u64],
    hi: usize,
    w: Wrote,
    out: &[u8],
) -> Below
    requires { EachLabelled s.now first_chains.now × EachLabelled u.now second_chains.now × (hi ≤ length row.now) × (w.own ≤ length out.now) }
    ensures { result ≡ below_of w out.now }
{
    let own = w.own;
    let digest = page_digest(
        s,
        u,
        first_chains,
        second_chains,
        row,
        w.first,
        hi,
        &out[..own],
    );
    Below {
        len: w.len,
        link: Some(digest),
    }
}

// The records lo..hi in a gap of a page of this layer: nothing, or a page of the layer below.
#[cycle(write_below_write_entries_write_page)]
fn write_below(
    s: &[u8],
    u: &[u8],
    first_chains: &[u64],
    second_chains: &[u64],
    row: &[u64],
    lo: usize,
    hi: usize,
    layer: usize,
    keys: &mut [u8],
    notes: &mut [u64],
    out: &mut [u8],
) -> Option<Below>
    requires { Ready s.now u.now row.now keys.old notes.old lo hi × EachLabelled s.now first_chains.now × EachLabelled u.now second_chains.now }
    ensures tables { GapWritten (gap_at s.now u.now row.now lo hi layer) out.old out.new result }
    ensures memory { Remembers s.now u.now keys.new notes.new }
{
    if !has_page(lo, hi, layer) {
        return Some(Below { len: 0, link: None });
    }
    let w = write_page(
        s,
        u,
        first_chains,
        second_chains,
        row,
        lo,
        hi,
        layer - 1,
        keys,
        notes,
        out,
    )?;
    Some(below_of(s, u, first_chains, second_chains, row, hi, w, out))
}
