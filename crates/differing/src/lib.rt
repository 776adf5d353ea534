// The difference of two registers.
#![tactic(auto)]

mod differ; // the difference of two registers that are accepted
mod rows; // the call, with rows that are lent

ghost use Rattle.std.specs.Prelude.{◌≡◌, length};
ghost use Rattle.promises.specs.Counted.{counted_answer, counted_output};
ghost use Rattle.promises.specs.Difference.{difference_outcome};

use crate::rows::difference_with_rows;
use answer::Refusal;
use lending::with_rows;

// Public call: the register of those records of a second register, in the pages that the first does not know, that the first does not
// hold. It goes to the output with zeros after it; its length and the number of opened pages are answered. On refusal the output is zero.
pub fn difference(first: &[u8], second: &[u8], out: &mut [u8]) -> Result<(u32, u32), Refusal>
    ensures answer { result ≡ counted_answer (difference_outcome first.now second.now (length out.old)) }
    ensures output { out.new ≡ counted_output (difference_outcome first.now second.now (length out.old)) (length out.old) }
{
    with_rows(
        first,
        &mut |index, chains| difference_with_rows(first, second, index, chains, out),
    )
}
