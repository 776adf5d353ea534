// The digest of a page that was written. Where the page stands in a lent register, the link that leads to it there has the digest.
#![tactic(auto)]

ghost use Rattle.std.specs.Prelude.{◌≡◌, ◌≤◌, length};
ghost use Rattle.fips180.specs.Hash.{sha256};
ghost use Rattle.index.specs.Chain.{last_label};
ghost use Rattle.labels.specs.Label.{EachLabelled, ChainFound, DigestFound};

use bytestring::same_bytes;
use sha256::digest_of;
use value::{DIGEST, Digest, digest_at};
use word::{above_in, end_in, is_first, link_in, page_in};

// The place of the label that leads to a chain's page with entries, from the chain's first word.
fn last_label(word: u64) -> usize
    ensures { result ≡ last_label word }
{
    if above_in(word) == 0 {
        return link_in(word);
    }
    page_in(word).saturating_sub(DIGEST)
}

// The chain whose page with entries stands at this place, by halves of the row.
fn find_chain(chains: &[u64], page: usize) -> Option<usize>
    ensures { ChainFound chains.now page result }
{
    let mut low = 0;
    let mut high = chains.len() / 2;
    // The library's search goes over single words, and a chain has two.
    while low < high {
        let middle = low + (high - low) / 2;
        let here = page_in(chains[2 * middle]);
        if here == page {
            return Some(middle);
        }
        if here < page {
            low = middle + 1;
        } else {
            high = middle;
        }
    }
    None
}

// Where in s the digest of these bytes stands, if they are those of the page with entries at this place and a link leads to that page.
fn label_of(s: &[u8], chains: &[u64], page: usize, bytes: &[u8]) -> Option<usize>
    requires { EachLabelled s.now chains.now }
    ensures { DigestFound s.now bytes.now result }
{
    let i = find_chain(chains, page)?;
    let word = chains[2 * i];
    if link_in(word) == 0 {
        return None;
    }
    let from = page_in(word);
    let to = end_in(chains[2 * i + 1]);
    let there = &s[from..to];
    if !same_bytes(there, bytes) {
        return None;
    }
    Some(last_label(word))
}

// The digest of these bytes: read in s if they are those of the page at this place, and computed otherwise.
fn digest_in(s: &[u8], chains: &[u64], page: usize, bytes: &[u8]) -> Digest
    requires { EachLabelled s.now chains.now }
    ensures { result ≡ sha256 bytes.now }
{
    match label_of(s, chains, page, bytes) {
        Some(label) => digest_at(s, label),
        None => digest_of(bytes),
    }
}

// The digest of a page that was written. Its first entry is the record at position `first`, and only that record's page in its own register
// can be the same; a page without entries has first = hi.
pub fn page_digest(
    s: &[u8],
    u: &[u8],
    first_chains: &[u64],
    second_chains: &[u64],
    row: &[u64],
    first: usize,
    hi: usize,
    bytes: &[u8],
) -> Digest
    requires { EachLabelled s.now first_chains.now × EachLabelled u.now second_chains.now × (hi ≤ length row.now) }
    ensures { result ≡ sha256 bytes.now }
{
    if hi <= first {
        return digest_of(bytes);
    }
    let word = row[first];
    let page = page_in(word);
    if is_first(word) {
        return digest_in(s, first_chains, page, bytes);
    }
    digest_in(u, second_chains, page, bytes)
}
