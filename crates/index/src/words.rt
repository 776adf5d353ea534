// The words of the two rows: one for a record, two for a chain.
ghost use Rattle.std.specs.Prelude.{◌^◌, ◌<◌};
ghost use Rattle.index.specs.Walk.{Noted, ChainNoted};

use word::{record_word, span_word};

// Notes a record in the index, where there is room.
pub(crate) fn note(index: &mut [u64], k: usize, page: usize, entry: usize, depth: usize)
    requires { (page < 2 ^ 24) × (entry < 2 ^ 24) × (depth < 256) }
    ensures { Noted index.old k page entry depth index.new }
{
    if k < index.len() {
        index[k] = record_word(page, entry, depth);
    }
}

// Notes a chain in its row, where there is room.
pub(crate) fn note_chain(
    row: &mut [u64],
    k: usize,
    page: usize,
    link: usize,
    above: usize,
    end: usize,
    from: usize,
    records: usize,
    below: usize,
)
    requires { (page < 2 ^ 24) × (link < 2 ^ 24) × (above < 256) × (end < 2 ^ 24) × (k < 2 ^ 32) }
    ensures { ChainNoted row.old k page link above end from records below row.new }
{
    if 2 * k + 1 < row.len() {
        row[2 * k] = record_word(page, link, above);
        row[2 * k + 1] = span_word(end, from, records, below);
    }
}
