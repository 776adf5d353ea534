// The difference of two registers that are accepted.
ghost use Rattle.std.specs.Prelude.{◌≡◌, ◌≤◌, length};
ghost use Rattle.index.specs.Accepted.{AcceptedIndex, ChainRow};
ghost use Rattle.promises.specs.Counted.{counted_answer, counted_output};
ghost use Rattle.promises.specs.Difference.{difference_outcome};

use answer::Refusal;
use choice::choose::leave_held;
use opened::pass::open_pages;
use writer::write_table;

// The records in opened pages of the second register are staged, those that the first holds are left out, and the others are written. The
// chains and the indexes are those of the two registers; the second's index has done its work when all is staged, and takes the row of what is
// written.
pub fn differ(
    first: &[u8],
    second: &[u8],
    first_chains: &[u64],
    first_count: usize,
    second_chains: &[u64],
    second_count: usize,
    index: &[u64],
    n: usize,
    other: &mut [u64],
    m: usize,
    staged: &mut [u64],
    out: &mut [u8],
) -> Result<(u32, u32), Refusal>
    requires { AcceptedIndex first.now index.now n × AcceptedIndex second.now other.old m × ChainRow first.now first_chains.now first_count × ChainRow second.now second_chains.now second_count × (m ≤ length staged.old) }
    ensures answer { result ≡ counted_answer (difference_outcome first.now second.now (length out.old)) }
    ensures output { out.new ≡ counted_output (difference_outcome first.now second.now (length out.old)) (length out.old) }
{
    let opening = open_pages(
        first,
        first_chains,
        first_count,
        second,
        second_chains,
        second_count,
        other,
        m,
        staged,
    );
    let opened = opening.opened as u32;
    let count = leave_held(first, second, index, n, staged, opening.staged, other);
    let len = write_table(
        first,
        second,
        first_chains,
        first_count,
        second_chains,
        second_count,
        other,
        count,
        out,
    )?;
    Ok((len, opened))
}
