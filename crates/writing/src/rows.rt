// The calls, with rows that are lent: one with a word for each record of a register and one with two words for each chain of its pages.
// A register that is accepted goes on with its rows to a function of its own. Where one is refused, the output is cleared, so that each
// refusal is named and none goes out by `?`.
ghost use Rattle.std.specs.Prelude.{◌≡◌, length};
ghost use Rattle.index.specs.Accepted.{AcceptedIndex, ChainRow};
ghost use Rattle.promises.specs.Outcome.{answer_of, output_of};
ghost use Rattle.promises.specs.Moved.{remove_outcome, moved_output, headed};
ghost use Rattle.promises.specs.Range.{run_outcome};
ghost use Rattle.judge.specs.Standing.{Stands};
ghost use Rattle.judge.specs.Verdict.{RoomFor};
ghost use Rattle.checking.specs.Lent.{TrueOf};
ghost use Rattle.writing.specs.Writing.{set_outcome};
ghost use Rattle.writing.specs.Setting.{RoomForMore};

use crate::accepted::write_range;
use crate::set::set_word;
use crate::tests::{test_range, test_record};
use answer::Refusal;
use checking::judge_lent;
use digests::root_end;
use head::{Head, Headed};
use judge::accepted::{Accepted, accept};
use key_calls::slash;
use reading::accepted::{lower_bound, upper_bound};
use row::search::search;
use row_words::{leave_out, single};
use value::as_value;
use writer::refusal::{refuse, refuse_headed};
use writer::write_headed;

// The register of the records from a first key up to and including a last.
pub fn run_with_rows(
    register: &[u8],
    first: &[u8],
    last: &[u8],
    index: &mut [u64],
    chains: &mut [u64],
    out: &mut [u8],
) -> Result<u32, Refusal>
    requires { RoomFor register.now 1 (length index.old) × RoomFor register.now 2 (length chains.old) }
    ensures answer { result ≡ answer_of (run_outcome register.now first.now last.now (length out.old)) }
    ensures output { out.new ≡ output_of (run_outcome register.now first.now last.now (length out.old)) (length out.old) }
{
    match accept(register, index, chains) {
        Ok(accepted) => run_accepted(&accepted, first, last, out),
        Err(refusal) => refuse(out, refusal),
    }
}

// The same of a register that is accepted.
fn run_accepted(
    accepted: &Accepted,
    first: &[u8],
    last: &[u8],
    out: &mut [u8],
) -> Result<u32, Refusal>
    requires { Stands accepted.now }
    ensures answer { result ≡ answer_of (run_outcome accepted.now.register.now first.now last.now (length out.old)) }
    ensures output { out.new ≡ output_of (run_outcome accepted.now.register.now first.now last.now (length out.old)) (length out.old) }
{
    if let Err(refusal) = test_range(first, last) {
        return refuse(out, refusal);
    }
    let low = lower_bound(accepted, first);
    let high = upper_bound(accepted, last);
    write_range(accepted, low, high, out)
}

// Put, or join.
pub fn set_value_with_rows(
    register: &[u8],
    head: Head,
    key: &[u8],
    value: &[u8],
    greater: bool,
    index: &mut [u64],
    chains: &mut [u64],
    out: &mut [u8],
) -> Headed
    requires { RoomFor register.now 1 (length index.old) × RoomFor register.now 2 (length chains.old) × RoomForMore register.now (length index.old) }
    ensures headed { result ≡ headed (set_outcome greater register.now head key.now value.now (length out.old)) head }
    ensures output { out.new ≡ moved_output (set_outcome greater register.now head key.now value.now (length out.old)) (length out.old) }
{
    match judge_lent(register, head, index, chains) {
        Ok((count, n)) => {
            set_accepted(
                register, head, key, value, greater, index, count, chains, n, out,
            )
        }
        Err(refusal) => refuse_headed(out, refusal, head),
    }
}

// The same of a register that is accepted, and of its own head. The record stands in a page of its own, and its word goes into the index: so
// the rows are no `Accepted` value, which only lends them.
fn set_accepted(
    register: &[u8],
    head: Head,
    key: &[u8],
    value: &[u8],
    greater: bool,
    index: &mut [u64],
    count: usize,
    chains: &[u64],
    n: usize,
    out: &mut [u8],
) -> Headed
    requires { AcceptedIndex register.now index.old count × ChainRow register.now chains.now n × TrueOf register.now head × RoomForMore register.now (length index.old) }
    ensures headed { result ≡ headed (set_outcome greater register.now head key.now value.now (length out.old)) head }
    ensures output { out.new ≡ moved_output (set_outcome greater register.now head key.now value.now (length out.old)) (length out.old) }
{
    if let Err(refusal) = test_record(key, value) {
        return refuse_headed(out, refusal, head);
    }
    let mut page = [0u8; 512];
    let word = single(key, as_value(value), &mut page);
    let found = search(register, index, count, key);
    let end = root_end(register, chains, n);
    let root = &register[..end];
    let Some(m) = set_word(register, &page, index, count, found, word, greater) else {
        return refuse_headed(out, Refusal::TooManyRecords, head);
    };
    write_headed(
        register, &page, chains, n, chains, 0, index, m, root, head, out,
    )
}

// The register without a key.
pub fn remove_with_rows(
    register: &[u8],
    head: Head,
    key: &[u8],
    index: &mut [u64],
    chains: &mut [u64],
    out: &mut [u8],
) -> Headed
    requires { RoomFor register.now 1 (length index.old) × RoomFor register.now 2 (length chains.old) }
    ensures headed { result ≡ headed (remove_outcome register.now head key.now (length out.old)) head }
    ensures output { out.new ≡ moved_output (remove_outcome register.now head key.now (length out.old)) (length out.old) }
{
    match judge_lent(register, head, index, chains) {
        Ok((count, n)) => { remove_accepted(register, head, key, index, count, chains, n, out) }
        Err(refusal) => refuse_headed(out, refusal, head),
    }
}

// The same of a register that is accepted, and of its own head. The index changes here too.
fn remove_accepted(
    register: &[u8],
    head: Head,
    key: &[u8],
    index: &mut [u64],
    count: usize,
    chains: &[u64],
    n: usize,
    out: &mut [u8],
) -> Headed
    requires { AcceptedIndex register.now index.old count × ChainRow register.now chains.now n × TrueOf register.now head }
    ensures headed { result ≡ headed (remove_outcome register.now head key.now (length out.old)) head }
    ensures output { out.new ≡ moved_output (remove_outcome register.now head key.now (length out.old)) (length out.old) }
{
    if let Err(refusal) = slash(key) {
        return refuse_headed(out, refusal, head);
    }
    let end = root_end(register, chains, n);
    let root = &register[..end];
    let Ok((position, _)) = search(register, index, count, key) else {
        return refuse_headed(out, Refusal::KeyAbsent, head);
    };
    leave_out(index, count, position);
    let left = count - 1;
    write_headed(
        register, register, chains, n, chains, n, index, left, root, head, out,
    )
}
