// The call, with rows that are lent for the first register: one with a word for each record and one with two words for each chain of its
// pages. The second's are lent once the first is accepted.
// Where a register is refused, the output is cleared, so that no refusal goes out by `?`.
ghost use Rattle.std.specs.Prelude.{◌≡◌, length};
ghost use Rattle.index.specs.Accepted.{AcceptedIndex, ChainRow};
ghost use Rattle.promises.specs.Counted.{counted_answer, counted_output};
ghost use Rattle.promises.specs.Difference.{difference_outcome};
ghost use Rattle.judge.specs.Verdict.{RoomFor};

use crate::differ::differ;
use answer::Refusal;
use judge::judge;
use lending::with_rows;
use writer::refusal::refuse;

// The difference of two registers.
pub fn difference_with_rows(
    first: &[u8],
    second: &[u8],
    index: &mut [u64],
    chains: &mut [u64],
    out: &mut [u8],
) -> Result<(u32, u32), Refusal>
    requires { RoomFor first.now 1 (length index.old) × RoomFor first.now 2 (length chains.old) }
    ensures answer { result ≡ counted_answer (difference_outcome first.now second.now (length out.old)) }
    ensures output { out.new ≡ counted_output (difference_outcome first.now second.now (length out.old)) (length out.old) }
{
    match judge(first, index, chains) {
        Ok((n, first_count)) => with_rows(
            second,
            &mut |others, other_chains| {
                difference_second(
                    first,
                    second,
                    index,
                    n,
                    chains,
                    first_count,
                    others,
                    other_chains,
                    out,
                )
            },
        ),
        Err(refusal) => refuse(out, refusal),
    }
}

// The second register is judged once the first is accepted.
fn difference_second(
    first: &[u8],
    second: &[u8],
    index: &[u64],
    n: usize,
    chains: &[u64],
    first_count: usize,
    others: &mut [u64],
    other_chains: &mut [u64],
    out: &mut [u8],
) -> Result<(u32, u32), Refusal>
    requires { AcceptedIndex first.now index.now n × ChainRow first.now chains.now first_count × RoomFor second.now 1 (length others.old) × RoomFor second.now 2 (length other_chains.old) }
    ensures answer { result ≡ counted_answer (difference_outcome first.now second.now (length out.old)) }
    ensures output { out.new ≡ counted_output (difference_outcome first.now second.now (length out.old)) (length out.old) }
{
    match judge(second, others, other_chains) {
        Ok((m, second_count)) => difference_accepted(
            first,
            second,
            index,
            n,
            chains,
            first_count,
            others,
            m,
            other_chains,
            second_count,
            out,
        ),
        Err(refusal) => refuse(out, refusal),
    }
}

// The same of two registers that are accepted. The records that may be in it are staged in a row of their own. Were this inlined, that row would
// stand in the frame that judges the second register, whose verdict would then use other places of the stack than the first's: that is slower
// where both are small.
#[inline(never)]
fn difference_accepted(
    first: &[u8],
    second: &[u8],
    index: &[u64],
    n: usize,
    chains: &[u64],
    first_count: usize,
    others: &mut [u64],
    m: usize,
    other_chains: &[u64],
    second_count: usize,
    out: &mut [u8],
) -> Result<(u32, u32), Refusal>
    requires { AcceptedIndex first.now index.now n × ChainRow first.now chains.now first_count × AcceptedIndex second.now others.old m × ChainRow second.now other_chains.now second_count }
    ensures answer { result ≡ counted_answer (difference_outcome first.now second.now (length out.old)) }
    ensures output { out.new ≡ counted_output (difference_outcome first.now second.now (length out.old)) (length out.old) }
{
    with_rows(
        second,
        &mut |staged, _| {
            differ(
                first,
                second,
                chains,
                first_count,
                other_chains,
                second_count,
                index,
                n,
                others,
                m,
                staged,
                out,
            )
        },
    )
}
