// A register that is accepted, with the words of its records and of its chains.
ghost use Rattle.std.specs.Prelude.{length};
ghost use Rattle.judge.specs.Verdict.{RoomFor};
ghost use Rattle.judge.specs.Standing.{AcceptSays};

use crate::judge;
use answer::Refusal;

// One word for each record, and two for each chain. That they are those of the register is a fact of the calls that take one, `Stands` or `Indexed`, and
// no ghost field: it holds the register's tree, which is more than a yes or no.
#[derive(Clone, Copy)]
pub struct Accepted<'a> {
    pub register: &'a [u8],
    pub index: &'a [u64],
    pub chains: &'a [u64],
}

// Numbers 1 to 10 of a byte string. A register that is accepted stands with its rows, cut from those that were lent.
pub fn accept<'a>(
    register: &'a [u8],
    index: &'a mut [u64],
    chains: &'a mut [u64],
) -> Result<Accepted<'a>, Refusal>
    requires { RoomFor register.now 1 (length index.old) × RoomFor register.now 2 (length chains.old) }
    ensures { AcceptSays register.now result }
{
    let (count, n) = judge(register, index, chains)?;
    Ok(Accepted {
        register,
        index: &index[..count],
        chains: &chains[..2 * n],
    })
}
