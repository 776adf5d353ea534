// The path of a key in a register.
#![tactic(auto)]

mod pages; // the pages of the path, by the row of chains
mod rows; // the call, with rows that are lent

ghost use Rattle.std.specs.Prelude.{◌≡◌, length};
ghost use Rattle.promises.specs.Outcome.{answer_of, output_of};
ghost use Rattle.path.specs.Path.{path_outcome};

use crate::rows::path_with_rows;
use answer::Refusal;
use lending::with_rows;

// Public call: the pages that a search for the key opens, from the root down. They go to the output with zeros after them, and their length
// is answered. On refusal the output is zero.
pub fn path(register: &[u8], key: &[u8], out: &mut [u8]) -> Result<u32, Refusal>
    ensures answer { result ≡ answer_of (path_outcome register.now key.now (length out.old)) }
    ensures output { out.new ≡ output_of (path_outcome register.now key.now (length out.old)) (length out.old) }
{
    with_rows(
        register,
        &mut |index, chains| path_with_rows(register, key, index, chains, out),
    )
}
