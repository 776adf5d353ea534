// The head of a register, and the judgement of a register that is lent with its head. The functions are for the crates above and no public
// calls.
#![tactic(auto)]

ghost use Rattle.std.specs.Prelude.{◌≡◌, length};
ghost use Rattle.tree.specs.Record.{records};
ghost use Rattle.tree.specs.Table.{SpeltTree};
ghost use Rattle.tree.specs.Judge.{accepted, judge};
ghost use Rattle.index.specs.Accepted.{AcceptedIndex, ChainRow};
ghost use Rattle.judge.specs.Verdict.{RoomFor};
ghost use Rattle.head.specs.Head.{head_of};
ghost use Rattle.promises.specs.Outcome.{check_outcome};
ghost use Rattle.checking.specs.Lent.{LentSays};

use answer::Refusal;
use digests::root_digest;
use head::{Head, Headed, same_head, zero_head};
use judge::judge;
use layout::runs::top_layer;

// The head of a register that is accepted, by its rows. They are no `Accepted` value: judge_lent hands them on to calls that change the index.
fn head_of(register: &[u8], index: &[u64], count: usize, chains: &[u64], n: usize) -> Head
    requires { AcceptedIndex register.now index.now count × ChainRow register.now chains.now n }
    ensures { (t : SpeltTree) → judge register.now ≡ accepted t → result ≡ head_of (records t) }
{
    let top = top_layer(index, count);
    let digest = root_digest(register, chains, n);
    Head {
        count: count as u32,
        layer: top as u32,
        digest,
    }
}

// The head of a register, and 0; or the first number that is due, and the head of zeros.
pub fn check_with_rows(register: &[u8], index: &mut [u64], chains: &mut [u64]) -> Headed
    requires { RoomFor register.now 1 (length index.old) × RoomFor register.now 2 (length chains.old) }
    ensures { result ≡ check_outcome register.now }
{
    match judge(register, index, chains) {
        Ok((count, n)) => Headed {
            answer: Ok(0),
            head: head_of(register, index, count, chains, n),
        },
        Err(refusal) => Headed {
            answer: Err(refusal),
            head: zero_head(),
        },
    }
}

// Numbers 1 to 10 of a register, then 17 where the head that it is lent with is not its own; and the rows of a register that is accepted.
pub fn judge_lent(
    register: &[u8],
    head: Head,
    index: &mut [u64],
    chains: &mut [u64],
) -> Result<(usize, usize), Refusal>
    requires { RoomFor register.now 1 (length index.old) × RoomFor register.now 2 (length chains.old) }
    ensures { LentSays register.now head result index.new chains.new }
{
    let (count, n) = judge(register, index, chains)?;
    let own = head_of(register, index, count, chains, n);
    if !same_head(head, own) {
        return Err(Refusal::UntrueHead);
    }
    Ok((count, n))
}
