// The call, with rows that are lent for the first register: one with a word for each record and one with two words for each chain of its
// pages. The second's are lent once the first is accepted.
// Where a register is refused, the output is cleared, so that no refusal goes out by `?`.
ghost use Rattle.std.specs.Prelude.{◌≡◌, length};
ghost use Rattle.index.specs.Accepted.{AcceptedIndex, ChainRow};
ghost use Rattle.promises.specs.Moved.{merge_outcome, moved_output, headed};
ghost use Rattle.judge.specs.Verdict.{RoomFor};
ghost use Rattle.checking.specs.Lent.{TrueOf};

use crate::write::write_chosen;
use checking::judge_lent;
use digests::root_end;
use head::{Head, Headed};
use judge::judge;
use lending::with_rows;
use row_words::to_second;
use writer::refusal::refuse_headed;

// All records of two registers; of two values under one key the greater is kept.
pub fn merge_with_rows(
    first: &[u8],
    head: Head,
    second: &[u8],
    index: &mut [u64],
    chains: &mut [u64],
    out: &mut [u8],
) -> Headed
    requires { RoomFor first.now 1 (length index.old) × RoomFor first.now 2 (length chains.old) }
    ensures headed { result ≡ headed (merge_outcome first.now head second.now (length out.old)) head }
    ensures output { out.new ≡ moved_output (merge_outcome first.now head second.now (length out.old)) (length out.old) }
{
    match judge_lent(first, head, index, chains) {
        Ok((n, first_count)) => with_rows(
            second,
            &mut |others, other_chains| {
                merge_second(
                    first,
                    head,
                    second,
                    index,
                    n,
                    chains,
                    first_count,
                    others,
                    other_chains,
                    out,
                )
            },
        ),
        Err(refusal) => refuse_headed(out, refusal, head),
    }
}

// The second register is judged once the first and its head are accepted.
fn merge_second(
    first: &[u8],
    head: Head,
    second: &[u8],
    index: &[u64],
    n: usize,
    chains: &[u64],
    first_count: usize,
    others: &mut [u64],
    other_chains: &mut [u64],
    out: &mut [u8],
) -> Headed
    requires { AcceptedIndex first.now index.now n × ChainRow first.now chains.now first_count × TrueOf first.now head × RoomFor second.now 1 (length others.old) × RoomFor second.now 2 (length other_chains.old) }
    ensures headed { result ≡ headed (merge_outcome first.now head second.now (length out.old)) head }
    ensures output { out.new ≡ moved_output (merge_outcome first.now head second.now (length out.old)) (length out.old) }
{
    match judge(second, others, other_chains) {
        Ok((m, second_count)) => {
            to_second(others, m);
            let end = root_end(first, chains, first_count);
            write_chosen(
                first,
                second,
                chains,
                first_count,
                other_chains,
                second_count,
                index,
                n,
                others,
                m,
                &first[..end],
                head,
                out,
            )
        }
        Err(refusal) => refuse_headed(out, refusal, head),
    }
}
