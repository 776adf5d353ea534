// The trees under the roots: each is judged, and what it reaches is noted.
ghost use Rattle.std.specs.Prelude.{[], IfSome, ◌≤◌, ◌<◌, length};
ghost use Rattle.links.specs.Links.{Names};
ghost use Rattle.filing.specs.Filed.{link_named};
ghost use Rattle.summing.specs.Inner.{LeadsOn};
ghost use Rattle.states_reader.specs.Inner.{Rooted, Judging, WordSays, OthersSay, JudgedSays, AllNoted};

use crate::{KEPT, MOST_PAGES};
use limits::LONGEST_KEY;
use links::find_word;
use summing::{judge_root, word_note};

// Whether the digest that a word names is that of a root. The parts are passed one by one, as to `judge_root`, whose contract names each.
fn judge_word(
    states: &[u8],
    sequence: &[u8],
    labels: &[u32],
    n: usize,
    pages: &mut [u32],
    counts: &mut [u16],
    keys: &mut [u8],
    tags: &mut [u32],
    last: &mut [u8],
    word: u32,
    mark: u32,
) -> bool
    requires { Judging states.now sequence.now labels.now pages.old counts.old keys.old tags.old last.old n × Names states.now sequence.now [] word × LeadsOn sequence.now n (link_named states.now sequence.now word) × (mark < 2) }
    ensures { WordSays states.now sequence.now labels.now n (link_named states.now sequence.now word) mark pages.old counts.old result pages.new counts.new keys.new tags.new last.new }
{
    let chains = [0u64; 0];
    let i = find_word(states, sequence, &chains, labels, n, word);
    judge_root(
        states, sequence, labels, n, pages, counts, keys, tags, last, i, mark,
    )
}

// The roots other than one's own, with mark 1. Whether each is one.
fn judge_others(
    states: &[u8],
    sequence: &[u8],
    roots: &[u32],
    count: usize,
    own: Option<usize>,
    labels: &[u32],
    n: usize,
    pages: &mut [u32],
    counts: &mut [u16],
    keys: &mut [u8],
    tags: &mut [u32],
    last: &mut [u8],
) -> bool
    requires { Rooted states.now sequence.now labels.now pages.old roots.now count n × Judging states.now sequence.now labels.now pages.old counts.old keys.old tags.old last.old n }
    ensures { OthersSay states.now sequence.now labels.now roots.now count own n result pages.new counts.new keys.new tags.new last.new }
{
    for i in 0..count {
        if own == Some(i) {
            continue;
        }
        let word = roots[i];
        if !judge_word(
            states, sequence, labels, n, pages, counts, keys, tags, last, word, 1,
        ) {
            return false;
        }
    }
    true
}

// All roots: those other than one's own with mark 1, then one's own with mark 0. Whether each is one.
pub(crate) fn judge_roots(
    states: &[u8],
    sequence: &[u8],
    roots: &[u32],
    count: usize,
    own: Option<usize>,
    labels: &[u32],
    n: usize,
    pages: &mut [u32],
) -> bool
    requires { Rooted states.now sequence.now labels.now pages.old roots.now count n × IfSome own (λ o. o < count) }
    ensures { JudgedSays states.now sequence.now labels.now roots.now count own n result pages.new }
{
    let mut counts = [0u16; MOST_PAGES];
    let mut keys = [0u8; KEPT * LONGEST_KEY];
    let mut tags = [0u32; KEPT];
    let mut last = [0u8; LONGEST_KEY];
    if !judge_others(
        states,
        sequence,
        roots,
        count,
        own,
        labels,
        n,
        pages,
        &mut counts,
        &mut keys,
        &mut tags,
        &mut last,
    ) {
        return false;
    }
    let Some(position) = own else {
        return true;
    };
    let word = roots[position];
    judge_word(
        states,
        sequence,
        labels,
        n,
        pages,
        &mut counts,
        &mut keys,
        &mut tags,
        &mut last,
        word,
        0,
    )
}

// Whether each of the first n pages is noted.
pub(crate) fn all_noted(pages: &[u32], n: usize) -> bool
    requires { n ≤ length pages.now }
    ensures { AllNoted pages.now n result }
{
    for c in 0..n {
        if word_note(pages[c]) == 0 {
            return false;
        }
    }
    true
}
