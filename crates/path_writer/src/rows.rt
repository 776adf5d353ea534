// The call, with rows that are lent: one with a word for each record of the register and one with two words for each chain of its pages.
// Where it refuses, the output is cleared, so that no refusal goes out by `?`.
ghost use Rattle.std.specs.Prelude.{◌≡◌, length};
ghost use Rattle.judge.specs.Standing.{Stands};
ghost use Rattle.judge.specs.Verdict.{RoomFor};
ghost use Rattle.promises.specs.Outcome.{answer_of, output_of};
ghost use Rattle.path.specs.Path.{path_outcome};

use crate::pages::write_path;
use answer::Refusal;
use judge::accepted::{Accepted, accept};
use key_calls::slash;
use reading::accepted::{lower_bound, upper_bound};
use writer::refusal::refuse;

// The path of a key.
pub fn path_with_rows(
    register: &[u8],
    key: &[u8],
    index: &mut [u64],
    chains: &mut [u64],
    out: &mut [u8],
) -> Result<u32, Refusal>
    requires { RoomFor register.now 1 (length index.old) × RoomFor register.now 2 (length chains.old) }
    ensures answer { result ≡ answer_of (path_outcome register.now key.now (length out.old)) }
    ensures output { out.new ≡ output_of (path_outcome register.now key.now (length out.old)) (length out.old) }
{
    match accept(register, index, chains) {
        Ok(accepted) => path_accepted(&accepted, key, out),
        Err(refusal) => refuse(out, refusal),
    }
}

// The same of a register that is accepted.
fn path_accepted(accepted: &Accepted, key: &[u8], out: &mut [u8]) -> Result<u32, Refusal>
    requires { Stands accepted.now }
    ensures answer { result ≡ answer_of (path_outcome accepted.now.register.now key.now (length out.old)) }
    ensures output { out.new ≡ output_of (path_outcome accepted.now.register.now key.now (length out.old)) (length out.old) }
{
    if let Err(refusal) = slash(key) {
        return refuse(out, refusal);
    }
    let low = lower_bound(accepted, key);
    let high = upper_bound(accepted, key);
    write_path(accepted, low, high, out)
}
