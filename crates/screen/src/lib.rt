// The drawer screen.
#![tactic(auto)]

mod name; // the collection's name
mod rows; // the call, with rows that are lent
mod show; // a screen of the records at some positions

ghost use Rattle.std.specs.Prelude.{◌≡◌, length};
ghost use Rattle.promises.specs.Counted.{counted_answer, counted_output};
ghost use Rattle.collections.specs.Screen.{screen_outcome};

use crate::rows::screen_with_rows;
use answer::Refusal;
use lending::with_rows;

// Public call: the register of up to eight records of a collection, those on the screen of this number, counted from 0. It goes to the output
// with zeros after it; its length and the number of screens are answered. On refusal the output is zero.
pub fn screen(
    register: &[u8],
    collection: &[u8],
    number: u64,
    out: &mut [u8],
) -> Result<(u32, u32), Refusal>
    ensures answer { result ≡ counted_answer (screen_outcome register.now collection.now number (length out.old)) }
    ensures output { out.new ≡ counted_output (screen_outcome register.now collection.now number (length out.old)) (length out.old) }
{
    with_rows(
        register,
        &mut |index, chains| screen_with_rows(register, collection, number, index, chains, out),
    )
}
