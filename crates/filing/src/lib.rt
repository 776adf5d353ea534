// Pages filed under their digests: each page is hashed once, in sequence, and joined to the links that lead to it. The functions are for the
// crates above and no public calls.
#![tactic(auto)]

ghost use Rattle.std.specs.Prelude.{◌≡◌, ◌^◌, ◌≤◌, ◌<◌, length};
ghost use Rattle.bytestring.specs.Bytes.{equal};
ghost use Rattle.value.specs.Value.{digest_length};
ghost use Rattle.fips180.specs.Hash.{sha256};
ghost use Rattle.filing.specs.Filed.{bytes_at, link_named, Staged, FilingSays};
ghost use Rattle.filing.specs.Inner.{StandingPages, page_end, InStrings, Passed};

use sha256::digest_of;
use value::{Digest, same_digest};

// The words from here on name digests in the states.
const FROM_STATES: u32 = 0x100_0000;

// Whether a word names this digest.
fn names_digest(states: &[u8], sequence: &[u8], word: u32, digest: &[u8]) -> bool
    requires { (word < 2 ^ 25) × (length digest.now ≡ digest_length) }
    ensures { result ≡ equal (link_named states.now sequence.now word) digest.now }
{
    if word < FROM_STATES {
        return same_digest(sequence, word as usize, digest);
    }
    same_digest(states, (word - FROM_STATES) as usize, digest)
}

// Where the i-th page ends.
fn page_end(sequence: &[u8], pages: &[u32], n: usize, i: usize) -> usize
    requires { (i < n) × (n ≤ length pages.now) }
    ensures { result ≡ page_end sequence.now pages.now n i }
{
    if i + 1 < n {
        return pages[i + 1] as usize;
    }
    sequence.len()
}

// The digest of the i-th page.
fn hash_page(sequence: &[u8], pages: &[u32], n: usize, i: usize) -> Digest
    requires { StandingPages sequence.now pages.now n × (i < n) }
    ensures { (g : StandingPages sequence.now pages.now n) → result ≡ sha256 (bytes_at g.raws i) }
{
    let at = pages[i] as usize;
    let end = page_end(sequence, pages, n, i);
    digest_of(&sequence[at..end])
}

// The first word from the j-th on that does not name this digest.
fn pass_words(
    states: &[u8],
    sequence: &[u8],
    words: &[u32],
    total: usize,
    j: usize,
    digest: &[u8],
) -> usize
    requires { (j ≤ total) × (total ≤ length words.now) × InStrings words.now j total × (length digest.now ≡ digest_length) }
    ensures { Passed states.now sequence.now words.now total j digest.now result }
{
    for k in j..total {
        if !names_digest(states, sequence, words[k], digest) {
            return k;
        }
    }
    total
}

// Files the n pages under the `total` words of links: word by word, the next digest that they name must be that of the next page. Its word
// becomes the page's label. Whether words and pages match.
pub fn file_pages(
    states: &[u8],
    sequence: &[u8],
    words: &mut [u32],
    total: usize,
    pages: &[u32],
    n: usize,
) -> bool
    requires { Staged states.now sequence.now words.old total pages.now n }
    ensures { (g : Staged states.now sequence.now words.old total pages.now n) → FilingSays states.now sequence.now words.old total pages.now n g.raws result words.new }
{
    let mut j = 0;
    for i in 0..n {
        if total <= j {
            return false;
        }
        let digest = hash_page(sequence, pages, n, i);
        let word = words[j];
        if !names_digest(states, sequence, word, &digest) {
            return false;
        }
        words[i] = word;
        j = pass_words(states, sequence, words, total, j, &digest);
    }
    j == total
}
