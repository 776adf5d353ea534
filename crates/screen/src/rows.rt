// The call, with rows that are lent: one with a word for each record of the register and one with two words for each chain of its pages.
ghost use Rattle.std.specs.Prelude.{◌≡◌, length};
ghost use Rattle.judge.specs.Standing.{Stands};
ghost use Rattle.judge.specs.Verdict.{RoomFor};
ghost use Rattle.promises.specs.Counted.{counted_answer, counted_output};
ghost use Rattle.collections.specs.Screen.{screen_outcome};

use crate::name::{count_before, is_collection_name};
use crate::show::show;
use answer::Refusal;
use judge::accepted::{Accepted, accept};
use writer::refusal::refuse;

// A screen of a collection.
pub fn screen_with_rows(
    register: &[u8],
    collection: &[u8],
    number: u64,
    index: &mut [u64],
    chains: &mut [u64],
    out: &mut [u8],
) -> Result<(u32, u32), Refusal>
    requires { RoomFor register.now 1 (length index.old) × RoomFor register.now 2 (length chains.old) }
    ensures answer { result ≡ counted_answer (screen_outcome register.now collection.now number (length out.old)) }
    ensures output { out.new ≡ counted_output (screen_outcome register.now collection.now number (length out.old)) (length out.old) }
{
    match accept(register, index, chains) {
        Ok(accepted) => screen_accepted(&accepted, collection, number, out),
        Err(refusal) => refuse(out, refusal),
    }
}

// The same of a register that is accepted. The keys of the collection stand together: from its name with a slash on, and before its name with
// the byte after a slash.
fn screen_accepted(
    accepted: &Accepted,
    collection: &[u8],
    number: u64,
    out: &mut [u8],
) -> Result<(u32, u32), Refusal>
    requires { Stands accepted.now }
    ensures answer { result ≡ counted_answer (screen_outcome accepted.now.register.now collection.now number (length out.old)) }
    ensures output { out.new ≡ counted_output (screen_outcome accepted.now.register.now collection.now number (length out.old)) (length out.old) }
{
    if !is_collection_name(collection) {
        return refuse(out, Refusal::UnlawfulKey);
    }
    let low = count_before(accepted, collection, b'/');
    let high = count_before(accepted, collection, b'0');
    show(accepted, low, high, number, out)
}
