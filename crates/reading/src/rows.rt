// The calls, with rows that are lent: one with a word for each record of the register and one with two words for each chain of its pages.
// A register that is accepted goes on with its rows to a function of its own.
ghost use Rattle.std.specs.Prelude.{◌≡◌, length};
ghost use Rattle.tree.specs.Judge.{judge};
ghost use Rattle.promises.specs.Outcome.{lookup_answer, list_outcome, list_answer, list_key, list_value};
ghost use Rattle.judge.specs.Standing.{Stands};
ghost use Rattle.judge.specs.Verdict.{RoomFor};
ghost use Rattle.reading.specs.Beside.{beside_record, beside_outcome};
ghost use Rattle.reading.specs.Positions.{accepted_records, PositionSays};

use crate::accepted::{lower_bound, record_at};
use crate::bytes::refuse_record;
use answer::Refusal;
use bytestring::clear;
use judge::accepted::{Accepted, accept};
use key_calls::slash;
use row::search::search;
use value::{VALUE, Value, codec_at};

// The place of the digest of the value under a key, and the value's codec.
pub fn lookup_with_rows(
    register: &[u8],
    key: &[u8],
    index: &mut [u64],
    chains: &mut [u64],
) -> Result<(u32, u32), Refusal>
    requires { RoomFor register.now 1 (length index.old) × RoomFor register.now 2 (length chains.old) }
    ensures { result ≡ lookup_answer register.now key.now }
{
    let accepted = accept(register, index, chains)?;
    lookup_accepted(&accepted, key)
}

// The same of a register that is accepted.
fn lookup_accepted(accepted: &Accepted, key: &[u8]) -> Result<(u32, u32), Refusal>
    requires { Stands accepted.now }
    ensures { result ≡ lookup_answer accepted.now.register.now key.now }
{
    slash(key)?;
    let register = accepted.register;
    let index = accepted.index;
    let Ok((_, place)) = search(register, index, index.len(), key) else {
        return Err(Refusal::KeyAbsent);
    };
    Ok((place as u32, u32::from(codec_at(register, place))))
}

// The n-th record, or that it is past the end.
pub fn list_with_rows(
    register: &[u8],
    n: u64,
    index: &mut [u64],
    chains: &mut [u64],
    out: &mut [u8],
    value: &mut Value,
) -> Result<u32, Refusal>
    requires { RoomFor register.now 1 (length index.old) × RoomFor register.now 2 (length chains.old) }
    ensures answer { result ≡ list_answer (list_outcome register.now n (length out.old)) }
    ensures key { out.new ≡ list_key (list_outcome register.now n (length out.old)) (length out.old) }
    ensures value { value.new ≡ list_value (list_outcome register.now n (length out.old)) }
{
    match accept(register, index, chains) {
        Ok(accepted) => list_accepted(&accepted, n, out, value),
        Err(refusal) => refuse_record(out, value, refusal),
    }
}

// The same of a register that is accepted.
fn list_accepted(
    accepted: &Accepted,
    n: u64,
    out: &mut [u8],
    value: &mut Value,
) -> Result<u32, Refusal>
    requires { Stands accepted.now }
    ensures answer { result ≡ list_answer (list_outcome accepted.now.register.now n (length out.old)) }
    ensures key { out.new ≡ list_key (list_outcome accepted.now.register.now n (length out.old)) (length out.old) }
    ensures value { value.new ≡ list_value (list_outcome accepted.now.register.now n (length out.old)) }
{
    let count = accepted.index.len();
    if count as u64 <= n {
        clear(out);
        *value = [0u8; VALUE];
        return Ok(0);
    }
    record_at(accepted, n as usize, out, value)
}

// The record on one side of a key: the first at or after it, or the last before it.
pub fn beside_with_rows(
    register: &[u8],
    key: &[u8],
    after: bool,
    index: &mut [u64],
    chains: &mut [u64],
    out: &mut [u8],
    value: &mut Value,
) -> Result<u32, Refusal>
    requires { RoomFor register.now 1 (length index.old) × RoomFor register.now 2 (length chains.old) }
    ensures answer { result ≡ list_answer (beside_outcome after register.now key.now (length out.old)) }
    ensures key { out.new ≡ list_key (beside_outcome after register.now key.now (length out.old)) (length out.old) }
    ensures value { value.new ≡ list_value (beside_outcome after register.now key.now (length out.old)) }
{
    match accept(register, index, chains) {
        Ok(accepted) => beside_accepted(&accepted, key, after, out, value),
        Err(refusal) => refuse_record(out, value, refusal),
    }
}

// The same of a register that is accepted.
fn beside_accepted(
    accepted: &Accepted,
    key: &[u8],
    after: bool,
    out: &mut [u8],
    value: &mut Value,
) -> Result<u32, Refusal>
    requires { Stands accepted.now }
    ensures answer { result ≡ list_answer (beside_outcome after accepted.now.register.now key.now (length out.old)) }
    ensures key { out.new ≡ list_key (beside_outcome after accepted.now.register.now key.now (length out.old)) (length out.old) }
    ensures value { value.new ≡ list_value (beside_outcome after accepted.now.register.now key.now (length out.old)) }
{
    if let Err(refusal) = slash(key) {
        return refuse_record(out, value, refusal);
    }
    let Some(position) = position_beside(accepted, key, after) else {
        return refuse_record(out, value, Refusal::KeyAbsent);
    };
    record_at(accepted, position, out, value)
}

// The position of the record on one side of a key, where there is one.
fn position_beside(accepted: &Accepted, key: &[u8], after: bool) -> Option<usize>
    requires { Stands accepted.now }
    ensures { PositionSays (length accepted.now.index.now) (accepted_records (judge accepted.now.register.now)) (beside_record after key.now (accepted_records (judge accepted.now.register.now))) result }
{
    let count = accepted.index.len();
    let below = lower_bound(accepted, key);
    if !after {
        return below.checked_sub(1);
    }
    if below < count {
        return Some(below);
    }
    None
}
