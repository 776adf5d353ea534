// The two buffers of states: their numbers in order, and what is at hand of those that are accepted. The functions are for the crates above
// and no public calls.
#![tactic(auto)]

mod roots; // the records of the state register as roots of trees
mod reached; // the trees under the roots

ghost use Rattle.std.specs.Prelude.{◌≤◌, length};
ghost use Rattle.judge.specs.Verdict.{RoomFor};
ghost use Rattle.index.specs.Accepted.{AcceptedIndex};
ghost use Rattle.filing.specs.Filed.{FilingSays};
ghost use Rattle.summing.specs.Inner.{raws_in};
ghost use Rattle.states_reader.specs.Held.{most_pages, most_words, StatesSay};
ghost use Rattle.states_reader.specs.Inner.{IndexSays, SequenceHeld, PagesSay, Unsorted, HoldSays};

use crate::reached::{all_noted, judge_roots};
use crate::roots::{note_roots, own_position};
use answer::Refusal;
use filing::file_pages;
use judge::judge;
use limits::{LONGEST, MOST};
use links::sort_words;
use sequence::note_sequence;

// The most pages of a sequence whose digests rise: 47 bytes each, and one empty page of 7.
const MOST_PAGES: usize = 89_241;

// So many keys are kept while records are read, and while trees are judged.
const KEPT: usize = 64;

// Numbers 1 to 10 of the states, and their index. The row of chains is not kept.
fn index_states(states: &[u8], index: &mut [u64]) -> Result<usize, Refusal>
    requires { RoomFor states.now 1 (length index.old) }
    ensures { IndexSays states.now result index.new }
{
    let mut chains = [0u64; 2 * MOST];
    let (count, _) = judge(states, index, &mut chains)?;
    Ok(count)
}

// Numbers 1, 3 and 2 of the pages, and their places and links. Where there are more pages than digests can rise, number 18 is due.
fn note_pages(
    sequence: &[u8],
    words: &mut [u32],
    pages: &mut [u32],
) -> Result<(usize, usize), Refusal>
    ensures { PagesSay sequence.now result words.new pages.new }
{
    if LONGEST < sequence.len() {
        return Err(Refusal::TooLong);
    }
    let (n, m) = note_sequence(sequence, words, pages)?;
    if MOST_PAGES < n {
        return Err(Refusal::WrongStates);
    }
    Ok((n, m))
}

// Files the pages under the words of links, which stand in whatever order. Whether words and pages match.
fn file_links(
    states: &[u8],
    sequence: &[u8],
    words: &mut [u32],
    total: usize,
    pages: &[u32],
    n: usize,
) -> bool
    requires { Unsorted states.now sequence.now words.old total pages.now n }
    ensures { FilingSays states.now sequence.now words.old total pages.now n (raws_in sequence.now) result words.new }
{
    let chains = [0u64; 0];
    sort_words(states, sequence, &chains, words, total);
    file_pages(states, sequence, words, total, pages, n)
}

// Number 18 of a state register that is accepted and of pages that were read, with m links.
fn states_hold(
    states: &[u8],
    sequence: &[u8],
    key: &[u8],
    index: &[u64],
    count: usize,
    labels: &mut [u32],
    m: usize,
    pages: &mut [u32],
    n: usize,
) -> bool
    requires { AcceptedIndex states.now index.now count × SequenceHeld sequence.now labels.old pages.old n m × (most_words ≤ length labels.old) × (most_pages ≤ length pages.old) }
    ensures { HoldSays states.now sequence.now key.now index.now count n result labels.new pages.new }
{
    let mut roots = [0u32; MOST];
    if !note_roots(states, index, count, &mut roots, labels, m) {
        return false;
    }
    if !file_links(states, sequence, labels, m + count, pages, n) {
        return false;
    }
    let own = own_position(states, index, count, key);
    if !judge_roots(states, sequence, &roots, count, own, labels, n, pages) {
        return false;
    }
    all_noted(pages, n)
}

// Numbers 1 to 10 of the states, 1, 3 and 2 of the pages, then 18. A page that a state reaches whose key is another than this one gets a mark.
// How many states there are, and how many pages.
pub fn judge_states(
    states: &[u8],
    sequence: &[u8],
    key: &[u8],
    index: &mut [u64],
    labels: &mut [u32],
    pages: &mut [u32],
) -> Result<(usize, usize), Refusal>
    requires { RoomFor states.now 1 (length index.old) × (most_words ≤ length labels.old) × (most_pages ≤ length pages.old) }
    ensures { StatesSay states.now sequence.now key.now result index.new labels.new pages.new }
{
    let count = index_states(states, index)?;
    let (n, m) = note_pages(sequence, labels, pages)?;
    if !states_hold(states, sequence, key, index, count, labels, m, pages, n) {
        return Err(Refusal::WrongStates);
    }
    Ok((count, n))
}
