// What a path of pages says of a key. It is judged page by page, with the digest of one page at hand.
#![tactic(auto)]

mod entries; // the entries of one page: the tests of their keys, and the search among them
mod pages; // the pages, one after the other

ghost use Rattle.std.specs.Prelude.{◌≡◌};
ghost use Rattle.path.specs.Verify.{verify_verdict, verify_answer};

use crate::pages::judge_pages;
use answer::Refusal;
use key_calls::slash;
use limits::LONGEST;
use value::{DIGEST, digest_at};

// Public call: what a path says of a key, to one who holds the root's digest. Present is answered by the place in the path of the
// value's digest, with the value's codec beside it, absent by 0 and 0.
pub fn verify(path: &[u8], key: &[u8], root: &[u8]) -> Result<(u32, u32), Refusal>
    ensures { result ≡ verify_answer path.now (verify_verdict path.now key.now root.now) }
{
    if LONGEST < path.len() {
        return Err(Refusal::TooLong);
    }
    slash(key)?;
    if root.len() != DIGEST {
        return Err(Refusal::WrongValue);
    }
    judge_pages(path, key, digest_at(root, 0))
}
