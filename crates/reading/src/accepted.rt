// The records of a register that is accepted, by its rows: for the crates above, and no public calls.
ghost use Rattle.std.specs.Prelude.{◌≡◌, ◌≤◌, ◌<◌, length};
ghost use Rattle.tree.specs.Judge.{judge};
ghost use Rattle.judge.specs.Standing.{Indexed};
ghost use Rattle.row.specs.Search.{count_below, count_up_to};
ghost use Rattle.promises.specs.Outcome.{list_outcome, list_answer, list_key, list_value};
ghost use Rattle.reading.specs.Positions.{accepted_records};

use answer::Refusal;
use bytestring::{clear, write_bytes};
use judge::accepted::Accepted;
use limits::LONGEST_KEY;
use row::fetch::fetch_from;
use row::search::{count_below, count_up_to};
use value::{VALUE, Value, value_at};

// The n-th record of an accepted register, as list gives it.
pub fn record_at(
    accepted: &Accepted,
    n: usize,
    out: &mut [u8],
    value: &mut Value,
) -> Result<u32, Refusal>
    requires { Indexed accepted.now × (n < length accepted.now.index.now) }
    ensures answer { result ≡ list_answer (list_outcome accepted.now.register.now n (length out.old)) }
    ensures key { out.new ≡ list_key (list_outcome accepted.now.register.now n (length out.old)) (length out.old) }
    ensures value { value.new ≡ list_value (list_outcome accepted.now.register.now n (length out.old)) }
{
    clear(out);
    *value = [0u8; VALUE];
    let register = accepted.register;
    let mut buffer = [0u8; LONGEST_KEY];
    let found = fetch_from(register, accepted.index[n], &mut buffer, 0);
    let size = found.size;
    if LONGEST_KEY < size {
        return Ok(0);
    }
    if out.len() < size {
        return Err(Refusal::NoRoom);
    }
    write_bytes(out, &buffer[..size]);
    *value = value_at(register, found.value);
    Ok(size as u32)
}

// How many records stand before a key.
pub fn lower_bound(accepted: &Accepted, key: &[u8]) -> usize
    requires { Indexed accepted.now }
    ensures number { result ≡ count_below key.now (accepted_records (judge accepted.now.register.now)) }
    ensures within { result ≤ length accepted.now.index.now }
{
    let index = accepted.index;
    count_below(accepted.register, index, index.len(), key)
}

// How many records stand up to and including a key.
pub fn upper_bound(accepted: &Accepted, key: &[u8]) -> usize
    requires { Indexed accepted.now }
    ensures number { result ≡ count_up_to key.now (accepted_records (judge accepted.now.register.now)) }
    ensures within { result ≤ length accepted.now.index.now }
{
    let index = accepted.index;
    count_up_to(accepted.register, index, index.len(), key)
}
