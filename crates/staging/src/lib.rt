// The pages of an accepted register by words that name their digests. The functions are for the crates above and no public calls.
#![tactic(auto)]

ghost use Rattle.std.specs.Prelude.{◌≡◌, List, ℕ, ◌+◌, ◌*◌, ◌≤◌, ◌<◌, length};
ghost use Rattle.limits.specs.Limits.{most};
ghost use Rattle.fips180.specs.Hash.{sha256};
ghost use Rattle.tree.specs.Table.{SpeltTree, bytes_of_page};
ghost use Rattle.tree.specs.Judge.{accepted, judge};
ghost use Rattle.promises.specs.Pages.{pages_of};
ghost use Rattle.index.specs.Accepted.{ChainRow};
ghost use Rattle.known.specs.Rows.{label_count};
ghost use Rattle.digests.specs.Digests.{RootEnd};
ghost use Rattle.staging.specs.Pages.{page_start, page_end, PageThere, PageWords};
ghost use Rattle.staging.specs.Inner.{chain_page_words, AddedWords};

use known::label_count;
use links::{FROM_CHAINS, FROM_FIRST};
use word::{above_in, end_in, page_in};

// The words of the pages of a chain, by its number in the row and its first word, after the first `total` words. The new number.
fn stage_chain(number: usize, word: u64, words: &mut [u32], total: usize) -> usize
    requires { (number < most) × (total + label_count word ≤ length words.old) }
    ensures { AddedWords words.old total (chain_page_words number (label_count word)) words.new result }
{
    let n = label_count(word);
    let first = FROM_CHAINS + 256 * number as u32;
    for k in 0..n {
        words[total + k] = first + k as u32;
    }
    total + n
}

// The words of all pages of an accepted register, by the row of its chains: of the root, and of each page that a label leads to. Their number.
pub fn stage_pages(register: &[u8], chains: &[u64], count: usize, words: &mut [u32]) -> usize
    requires { ChainRow register.now chains.now count × (length register.now ≤ 47 * length words.old) }
    ensures staged { (t : SpeltTree) (root : List ℕ) (rootEnd : ℕ) → judge register.now ≡ accepted t → root ≡ sha256 (bytes_of_page t) → RootEnd register.now rootEnd → PageWords root register.now rootEnd chains.now words.new result (pages_of t) }
    ensures few { (1 ≤ result) × (47 * result ≤ length register.now + 40) }
{
    // The digest of the root is lent beside the register: it is the first string.
    words[0] = FROM_FIRST;
    let mut total = 1;
    for i in 0..count {
        total = stage_chain(i, chains[2 * i], words, total);
    }
    total
}

// Where the page of a word begins in the register.
pub fn page_start(chains: &[u64], word: u32) -> usize
    requires { PageThere chains.now word }
    ensures { result ≡ page_start chains.now word }
{
    if word < FROM_CHAINS {
        return 0;
    }
    let number = (word - FROM_CHAINS) as usize;
    let first = chains[2 * (number / 256)];
    page_in(first) - 47 * (above_in(first) - number % 256)
}

// Where it ends; the root ends at a place that is given.
pub fn page_end(root_end: usize, chains: &[u64], word: u32) -> usize
    requires { PageThere chains.now word }
    ensures { result ≡ page_end root_end chains.now word }
{
    if word < FROM_CHAINS {
        return root_end;
    }
    let number = (word - FROM_CHAINS) as usize;
    let i = 2 * (number / 256);
    if number % 256 == above_in(chains[i]) {
        return end_in(chains[i + 1]);
    }
    page_start(chains, word) + 47
}
