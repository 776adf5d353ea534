// The digests of a register's pages: one pass over the row of its chains. The functions are for the crates above and no public calls.
#![tactic(auto)]

ghost use Rattle.std.specs.Prelude.{◌≡◌, ◌-◌, ◌*◌, ◌≤◌, length, take, drop};
ghost use Rattle.bytestring.specs.Bytes.{equal};
ghost use Rattle.value.specs.Value.{digest_in};
ghost use Rattle.fips180.specs.Hash.{sha256};
ghost use Rattle.tree.specs.Table.{SpeltTree, bytes_of_page};
ghost use Rattle.tree.specs.Judge.{accepted, judge};
ghost use Rattle.index.specs.Accepted.{ChainRow};
ghost use Rattle.word.specs.Word.{page_in, above_in, end_in};
ghost use Rattle.digests.specs.Digests.{ChainsNoted, LabelsSay, ChainSays, DigestsSay, RootEnd};

use sha256::digest_of;
use value::{Digest, same_digest};
use word::{above_in, end_in, link_in, page_in};

// Whether the digest at the place link is that of the page from at to to.
fn link_holds(s: &[u8], link: usize, at: usize, to: usize) -> bool
    requires { (at ≤ to) × (to ≤ length s.now) }
    ensures { result ≡ equal (digest_in s.now link) (sha256 (take (to - at) (drop at s.now))) }
{
    let digest = digest_of(&s[at..to]);
    same_digest(s, link, &digest)
}

// Whether each label of a chain is the digest of its page: of so many pages without entries, and of the page with entries.
fn labels_hold(s: &[u8], link: usize, above: usize, page: usize, end: usize) -> bool
    requires { (47 * above ≤ page) × (page ≤ end) × (end ≤ length s.now) }
    ensures { LabelsSay s.now link above page end result }
{
    let mut label = link;
    for k in 0..above {
        let at = page - 47 * (above - k);
        if !link_holds(s, label, at, at + 47) {
            return false;
        }
        label = at + 15;
    }
    link_holds(s, label, page, end)
}

// The same by the two words of a chain, whether it has labels or none: link 0 stands for the root.
fn chain_holds(s: &[u8], word: u64, span: u64) -> bool
    requires { (47 * above_in word ≤ page_in word) × (page_in word ≤ end_in span) × (end_in span ≤ length s.now) }
    ensures { ChainSays s.now word span result }
{
    let link = link_in(word);
    if link == 0 {
        return true;
    }
    labels_hold(s, link, above_in(word), page_in(word), end_in(span))
}

// Whether each label of the first n chains of a row is the digest of its page.
pub fn digests_hold(s: &[u8], row: &[u64], n: usize) -> bool
    requires { ChainsNoted s.now row.now n }
    ensures { DigestsSay s.now row.now n result }
{
    for i in 0..n {
        if !chain_holds(s, row[2 * i], row[2 * i + 1]) {
            return false;
        }
    }
    true
}

// Where the root of an accepted register ends: its chain is the first, and a register without chains has no other page.
pub fn root_end(s: &[u8], row: &[u64], n: usize) -> usize
    requires { ChainRow s.now row.now n }
    ensures { RootEnd s.now result }
{
    if n == 0 {
        return s.len();
    }
    end_in(row[1])
}

// The digest of the root of an accepted register.
pub fn root_digest(s: &[u8], row: &[u64], n: usize) -> Digest
    requires { ChainRow s.now row.now n }
    ensures { (t : SpeltTree) → judge s.now ≡ accepted t → result ≡ sha256 (bytes_of_page t) }
{
    let end = root_end(s, row, n);
    digest_of(&s[..end])
}
