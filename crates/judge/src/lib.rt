// Numbers 1 to 10 of a byte string. The walk reads its form and notes its rows; the layers of its keys and the digests of its pages are
// then passes over these rows, so that nothing is hashed of what is refused before. The functions are for the crates above and no public
// calls.
#![tactic(auto)]

pub mod accepted; // a register that is accepted, with its rows
mod layers; // the layers of the keys
mod prefixes; // the prefix lengths, where keys may be long

ghost use Rattle.std.specs.Prelude.{◌*◌, ◌≤◌, length};
ghost use Rattle.limits.specs.Limits.{longest};
ghost use Rattle.index.specs.Walk.{Walks};
ghost use Rattle.judge.specs.Verdict.{PrefixesSay, RoomFor, RegisterSays};

use crate::layers::note_layers;
use crate::prefixes::prefixes_hold;
use answer::Refusal;
use digests::digests_hold;
use index::walk::{WalkState, walk};
use limits::MOST;

// Whether all prefix lengths are right. The walk may have failed to tell: then the pages are read again, one half of the row after the other.
// A function that is called in two places has a frame of its own: the buffer of 65,536 bytes is not on the stack while the pages are walked.
fn prefixes_right(s: &[u8], row: &[u64], st: WalkState) -> bool
    requires { 2 * st.chains ≤ length row.now }
    ensures { PrefixesSay s.now row.now st result }
{
    if st.prefixes {
        return true;
    }
    let half = st.chains / 2;
    if !prefixes_hold(s, &row[..2 * half], half) {
        return false;
    }
    prefixes_hold(s, &row[2 * half..], st.chains - half)
}

// Numbers 4 to 10, in their order, of a register that was walked through.
fn verdict_of(
    s: &[u8],
    index: &mut [u64],
    row: &[u64],
    st: WalkState,
) -> Result<(usize, usize), Refusal>
    requires { (length s.now ≤ longest) × RoomFor s.now 1 (length index.old) × RoomFor s.now 2 (length row.now) × Walks s.now index.old row.now st }
    ensures { RegisterSays s.now result index.new row.now }
{
    if st.next < s.len() {
        return Err(Refusal::BytesFollow);
    }
    if MOST < st.count {
        return Err(Refusal::TooManyRecords);
    }
    if !prefixes_right(s, row, st) {
        return Err(Refusal::WrongPrefix);
    }
    if !st.lawful {
        return Err(Refusal::UnlawfulKey);
    }
    if !st.rising {
        return Err(Refusal::KeysNotRising);
    }
    if !st.filled {
        return Err(Refusal::WrongTree);
    }
    let count = st.count;
    if !note_layers(s, index, count) {
        return Err(Refusal::WrongTree);
    }
    let chains = st.chains;
    if !digests_hold(s, row, chains) {
        return Err(Refusal::WrongDigest);
    }
    Ok((count, chains))
}

// Numbers 1 to 10 of a byte string, and the rows of a register that is accepted: how many records it has, and how many chains.
pub fn judge(s: &[u8], index: &mut [u64], row: &mut [u64]) -> Result<(usize, usize), Refusal>
    requires { RoomFor s.now 1 (length index.old) × RoomFor s.now 2 (length row.old) }
    ensures { RegisterSays s.now result index.new row.new }
{
    if limits::LONGEST < s.len() {
        return Err(Refusal::TooLong);
    }
    let st = walk(s, index, row)?;
    verdict_of(s, index, row, st)
}
