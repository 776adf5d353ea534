// The digests of a register's pages: the root's, and the labels of its chains. A table of labels finds a digest by its first bits, so that
// a page is not compared with every page. The functions are for the crates above and no public calls.
#![tactic(auto)]

ghost use Rattle.std.specs.Prelude.{◌≡◌, ◌+◌, ◌*◌, ◌^◌, ◌≤◌, ◌<◌, length};
ghost use Rattle.value.specs.Value.{digest_length};
ghost use Rattle.bytestring.specs.Bytes.{zeros};
ghost use Rattle.word.specs.Word.{page_in, above_in};
ghost use Rattle.known.specs.Rows.{SomeChains, label_count, label_place, SomeLabels};
ghost use Rattle.known.specs.Known.{first_bits, LinkFits, Linked, Tabled, AddedLink, AddedChain, Filled, InTable, IsKnown, OpenLabels};

use value::{DIGEST, same_digest};
use word::{above_in, link_in, link_word, older_in, page_in, place_in};

// The first twelve bits of a digest.
fn first_bits(digest: &[u8]) -> usize
    requires { length digest.now ≡ digest_length }
    ensures { (result ≡ first_bits digest.now) × (result < 4096) }
{
    usize::from(digest[0]) * 16 + usize::from(digest[1]) / 16
}

// One link more, by the place of its digest; place 0 is no link. The new count.
fn add_link(s: &[u8], at: usize, heads: &mut [u32], words: &mut [u64], count: usize) -> usize
    requires { Linked s.now heads.old words.old count × (count < length words.old) × LinkFits s.now at }
    ensures { AddedLink s.now words.old at count heads.new words.new result }
{
    if at == 0 {
        return count;
    }
    let bits = first_bits(&s[at..at + DIGEST]);
    words[count] = link_word(at, heads[bits]);
    heads[bits] = (count + 1) as u32;
    count + 1
}

// How many labels a chain has, by its first word: none where no link leads to it.
pub fn label_count(word: u64) -> usize
    ensures { result ≡ label_count word }
{
    if link_in(word) == 0 {
        return 0;
    }
    above_in(word) + 1
}

// The place of the k-th label of a chain, by its first word.
pub fn label_place(word: u64, k: usize) -> usize
    requires { (k ≤ above_in word) × (47 * above_in word ≤ page_in word) }
    ensures { result ≡ label_place word k }
{
    if k == 0 {
        return link_in(word);
    }
    page_in(word) - 47 * above_in(word) + 47 * (k - 1) + 15
}

// The labels of a chain, by its first word, into the table. The new count.
fn add_chain(s: &[u8], word: u64, heads: &mut [u32], words: &mut [u64], count: usize) -> usize
    requires { Linked s.now heads.old words.old count × (count + label_count word ≤ length words.old) × SomeLabels s.now word }
    ensures { AddedChain s.now words.old word count heads.new words.new result }
{
    let n = label_count(word);
    let mut total = count;
    for k in 0..n {
        total = add_link(s, label_place(word, k), heads, words, total);
    }
    total
}

// The labels of the chains from the start-th on into an empty table, as many whole chains as there is room for. The first that is left.
pub fn fill(
    s: &[u8],
    known: &[u64],
    n: usize,
    start: usize,
    heads: &mut [u32],
    words: &mut [u64],
) -> usize
    requires { SomeChains s.now known.now n × (start ≤ n) × (length heads.old ≡ 4096) × (length words.old ≡ 4096) × (length s.now < 2 ^ 32) }
    ensures { Filled s.now known.now n start heads.new words.new result }
{
    heads.fill(0);
    let mut count = 0;
    for i in start..n {
        let word = known[2 * i];
        if words.len() - count < label_count(word) {
            return i;
        }
        count = add_chain(s, word, heads, words, count);
    }
    n
}

// Whether a digest is among the links in the table.
fn in_table(s: &[u8], heads: &[u32], words: &[u64], digest: &[u8]) -> bool
    requires { Tabled s.now heads.now words.now × (length digest.now ≡ digest_length) }
    ensures { InTable s.now heads.now words.now digest.now result }
{
    let mut n = heads[first_bits(digest)] as usize;
    // Each link of a bucket names the one before it.
    while n != 0 {
        let word = words[n - 1];
        if same_digest(s, place_in(word), digest) {
            return true;
        }
        n = older_in(word);
    }
    false
}

// Whether a digest is the root's or among the links in the table.
pub fn is_known(s: &[u8], heads: &[u32], words: &[u64], root: &[u8], digest: &[u8]) -> bool
    requires { Tabled s.now heads.now words.now × (length root.now ≡ digest_length) × (length digest.now ≡ digest_length) }
    ensures { IsKnown s.now heads.now words.now root.now digest.now result }
{
    if same_digest(root, 0, digest) {
        return true;
    }
    in_table(s, heads, words, digest)
}

// How many labels of a chain of u, by its first word, stand before one that is known, among the first `most`.
pub fn open_labels(
    s: &[u8],
    heads: &[u32],
    words: &[u64],
    root: &[u8],
    u: &[u8],
    word: u64,
    most: usize,
) -> usize
    requires { Tabled s.now heads.now words.now × (length root.now ≡ digest_length) × SomeLabels u.now word × (most ≤ label_count word) }
    ensures { (result ≤ most) × OpenLabels s.now heads.now words.now root.now u.now word most result }
{
    for k in 0..most {
        let at = label_place(word, k);
        if is_known(s, heads, words, root, &u[at..at + DIGEST]) {
            return k;
        }
    }
    most
}
