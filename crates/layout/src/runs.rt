// The records of a row by their layers: where a page's entries stand, and which gaps have a page.
ghost use Rattle.std.specs.Prelude.{◌≡◌, List, [], ℕ, ◌-◌, ◌≤◌, ◌<◌, max, length};
ghost use Rattle.tree.specs.Tree.{top_layer};
ghost use Rattle.layout.specs.Build.{record_in, span, entries_at, count_of};
ghost use Rattle.layout.specs.Layout.{Run, has_page};

use word::layer_in;

// The highest layer of the first n records.
pub fn top_layer(row: &[u64], n: usize) -> usize
    requires { n ≤ length row.now }
    ensures { (s u : List ℕ) → result ≡ top_layer (span (record_in s u row.now) 0 n) }
{
    let mut top = 0;
    for i in 0..n {
        top = top.max(layer_in(row[i]));
    }
    top
}

// Where the run of records of other layers ends.
pub fn run_end(row: &[u64], lo: usize, hi: usize, layer: usize) -> usize
    requires { (lo ≤ hi) × (hi ≤ length row.now) }
    ensures { Run row.now layer lo hi result }
{
    for i in lo..hi {
        if layer_in(row[i]) == layer {
            return i;
        }
    }
    hi
}

// How many entries the page of lo..hi has.
pub fn count_entries(row: &[u64], lo: usize, hi: usize, layer: usize) -> usize
    requires { (lo ≤ hi) × (hi ≤ length row.now) }
    ensures count { (s u : List ℕ) → result ≡ count_of [] (entries_at layer (record_in s u row.now) lo hi) }
    ensures few { result ≤ hi }
{
    let mut count = 0;
    let mut i = run_end(row, lo, hi, layer);
    // The position moves from entry to entry.
    while i < hi {
        count += 1;
        i = run_end(row, i + 1, hi, layer);
    }
    count
}

// Whether the records lo..hi in a gap of a page of this layer have a page.
pub fn has_page(lo: usize, hi: usize, layer: usize) -> bool
    requires { lo ≤ hi }
    ensures { result ≡ has_page layer (hi - lo) }
{
    0 < layer && lo < hi
}
