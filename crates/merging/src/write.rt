// The table of the records of two rows.
ghost use Rattle.std.specs.Prelude.{◌≡◌, true, length};
ghost use Rattle.index.specs.Chain.{Labelled};
ghost use Rattle.row.specs.Row.{Row};
ghost use Rattle.fips180.specs.Hash.{sha256};
ghost use Rattle.promises.specs.Moved.{moved_output, headed};
ghost use Rattle.choice.specs.Choice.{woven_of};
ghost use Rattle.writing.specs.Writing.{moved_to};

use answer::Refusal;
use choice::choose::choose;
use head::{Head, Headed};
use limits::MOST;
use writer::refusal::refuse_headed;
use writer::write_headed;

// The table of the records of two rows, which stand in two registers with these chains. Where both have a key, the greater value is taken. The
// lent head's digest is that of this root page. Were this inlined, its rows would stand in the frame that judges the second register, whose verdict
// would then use other places of the stack than the first's: that is slower where both are small.
#[inline(never)]
pub fn write_chosen(
    s: &[u8],
    u: &[u8],
    first_chains: &[u64],
    first_count: usize,
    second_chains: &[u64],
    second_count: usize,
    first: &[u64],
    n: usize,
    second: &[u64],
    m: usize,
    root: &[u8],
    head: Head,
    out: &mut [u8],
) -> Headed
    requires { Row s.now u.now first.now n × Row s.now u.now second.now m × Labelled s.now first_chains.now first_count × Labelled u.now second_chains.now second_count × (head.digest ≡ sha256 root.now) }
    ensures headed { result ≡ headed (moved_to (woven_of true s.now u.now first.now n second.now m) (length out.old)) head }
    ensures output { out.new ≡ moved_output (moved_to (woven_of true s.now u.now first.now n second.now m) (length out.old)) (length out.old) }
{
    let mut row = [0u64; MOST];
    let Some(count) = choose(s, u, first, n, second, m, &mut row) else {
        return refuse_headed(out, Refusal::TooManyRecords, head);
    };
    write_headed(
        s,
        u,
        first_chains,
        first_count,
        second_chains,
        second_count,
        &row,
        count,
        root,
        head,
        out,
    )
}
