// The records of a register that is accepted, part of them or with one set or left out, by its rows: for the crates above, and no public
// calls.
ghost use Rattle.std.specs.Prelude.{◌≡◌, true, ◌≤◌, length};
ghost use Rattle.key.specs.Key.{lawful};
ghost use Rattle.value.specs.Value.{is_value};
ghost use Rattle.tree.specs.Judge.{judge};
ghost use Rattle.index.specs.Accepted.{AcceptedIndex};
ghost use Rattle.judge.specs.Standing.{Stands};
ghost use Rattle.promises.specs.Outcome.{answer_of, output_of};
ghost use Rattle.reading.specs.Positions.{accepted_records};
ghost use Rattle.promises.specs.Map.{put};
ghost use Rattle.writing.specs.Writing.{written, records_from, written_without};
ghost use Rattle.writing.specs.Setting.{RoomForMore};

use crate::set::set_word;
use answer::Refusal;
use judge::accepted::Accepted;
use row::search::search;
use row_words::{leave_out, single};
use value::Value;
use writer::refusal::refuse;
use writer::write_table;

// The register of the records at the positions from low to before high.
pub fn write_range(
    accepted: &Accepted,
    low: usize,
    high: usize,
    out: &mut [u8],
) -> Result<u32, Refusal>
    requires { Stands accepted.now × (low ≤ high) × (high ≤ length accepted.now.index.now) }
    ensures answer { result ≡ answer_of (written (records_from low high (accepted_records (judge accepted.now.register.now))) (length out.old)) }
    ensures output { out.new ≡ output_of (written (records_from low high (accepted_records (judge accepted.now.register.now))) (length out.old)) (length out.old) }
{
    let register = accepted.register;
    let chains = accepted.chains;
    let n = chains.len() / 2;
    write_table(
        register,
        register,
        chains,
        n,
        chains,
        n,
        &accepted.index[low..high],
        high - low,
        out,
    )
}

// The register with one record set. No labels are at hand, so that each page is hashed anew.
pub fn put_record(
    register: &[u8],
    index: &mut [u64],
    count: usize,
    key: &[u8],
    value: Value,
    out: &mut [u8],
) -> Result<u32, Refusal>
    requires { AcceptedIndex register.now index.old count × RoomForMore register.now (length index.old) × (lawful key.now ≡ true) × (is_value value ≡ true) }
    ensures answer { result ≡ answer_of (written (put (record { key = key.now; val = value }) (accepted_records (judge register.now))) (length out.old)) }
    ensures output { out.new ≡ output_of (written (put (record { key = key.now; val = value }) (accepted_records (judge register.now))) (length out.old)) (length out.old) }
{
    let mut page = [0u8; 512];
    let none = [0u64; 1];
    let word = single(key, value, &mut page);
    let found = search(register, index, count, key);
    let Some(m) = set_word(register, &page, index, count, found, word, false) else {
        return refuse(out, Refusal::TooManyRecords);
    };
    write_table(register, &page, &none, 0, &none, 0, index, m, out)
}

// The register without a key; number 12 where it is absent.
pub fn remove_record(
    register: &[u8],
    index: &mut [u64],
    count: usize,
    key: &[u8],
    out: &mut [u8],
) -> Result<u32, Refusal>
    requires { AcceptedIndex register.now index.old count }
    ensures answer { result ≡ answer_of (written_without key.now (accepted_records (judge register.now)) (length out.old)) }
    ensures output { out.new ≡ output_of (written_without key.now (accepted_records (judge register.now)) (length out.old)) (length out.old) }
{
    let none = [0u64; 1];
    let Ok((position, _)) = search(register, index, count, key) else {
        return refuse(out, Refusal::KeyAbsent);
    };
    leave_out(index, count, position);
    let left = count - 1;
    write_table(register, register, &none, 0, &none, 0, index, left, out)
}
