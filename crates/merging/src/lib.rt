// The merge of two registers.
#![tactic(auto)]

mod write; // the table of the records of two rows
mod rows; // the call, with rows that are lent

ghost use Rattle.std.specs.Prelude.{◌≡◌, length};
ghost use Rattle.promises.specs.Moved.{merge_outcome, moved_output, headed};

use crate::rows::merge_with_rows;
use head::{Head, Headed};
use lending::with_rows;

// The call on a head by value: all records of two registers; of two values under one key the greater is kept. The head is the first's.
pub fn merge(first: &[u8], head: Head, second: &[u8], out: &mut [u8]) -> Headed
    ensures headed { result ≡ headed (merge_outcome first.now head second.now (length out.old)) head }
    ensures output { out.new ≡ moved_output (merge_outcome first.now head second.now (length out.old)) (length out.old) }
{
    with_rows(
        first,
        &mut |index, chains| merge_with_rows(first, head, second, index, chains, out),
    )
}
