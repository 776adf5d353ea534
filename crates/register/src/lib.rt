// The calls on one register.
#![tactic(auto)]

ghost use Rattle.std.specs.Prelude.{◌≡◌, length};
ghost use Rattle.promises.specs.Outcome.{check_outcome, lookup_answer, list_outcome, list_answer, list_key, list_value, answer_of, output_of};
ghost use Rattle.promises.specs.Moved.{put_outcome, remove_outcome, join_outcome, moved_output, headed};
ghost use Rattle.promises.specs.Range.{at_or_after_outcome, before_outcome, run_outcome};
ghost use Rattle.reading.specs.Beside.{beside_outcome};
ghost use Rattle.writing.specs.Writing.{set_outcome};

use answer::Refusal;
use checking::check_with_rows;
use head::{Head, Headed};
use lending::with_rows;
use reading::rows::{beside_with_rows, list_with_rows, lookup_with_rows};
use value::Value;
use writing::rows::{remove_with_rows, run_with_rows, set_value_with_rows};

// The call on a head by value: the head of a register, and 0; on refusal the head of zeros.
pub fn check(register: &[u8]) -> Headed
    ensures { result ≡ check_outcome register.now }
{
    with_rows(
        register,
        &mut |index, chains| check_with_rows(register, index, chains),
    )
}

// Public call: the place of the digest of the value under a key, and the value's codec.
pub fn lookup(register: &[u8], key: &[u8]) -> Result<(u32, u32), Refusal>
    ensures { result ≡ lookup_answer register.now key.now }
{
    with_rows(
        register,
        &mut |index, chains| lookup_with_rows(register, key, index, chains),
    )
}

// Public call: the n-th record in key order, n from 0. Its key goes to the output with zeros after it and its value beside it; the key's
// length is answered. Past the end the answer is 0, and both outputs are zero, as they are on refusal.
pub fn list(register: &[u8], n: u64, out: &mut [u8], value: &mut Value) -> Result<u32, Refusal>
    ensures answer { result ≡ list_answer (list_outcome register.now n (length out.old)) }
    ensures key { out.new ≡ list_key (list_outcome register.now n (length out.old)) (length out.old) }
    ensures value { value.new ≡ list_value (list_outcome register.now n (length out.old)) }
{
    with_rows(
        register,
        &mut |index, chains| list_with_rows(register, n, index, chains, out, value),
    )
}

// Public call: the first record at or after a key, as list gives one.
pub fn at_or_after(
    register: &[u8],
    key: &[u8],
    out: &mut [u8],
    value: &mut Value,
) -> Result<u32, Refusal>
    ensures answer { result ≡ list_answer (at_or_after_outcome register.now key.now (length out.old)) }
    ensures key { out.new ≡ list_key (at_or_after_outcome register.now key.now (length out.old)) (length out.old) }
    ensures value { value.new ≡ list_value (at_or_after_outcome register.now key.now (length out.old)) }
{
    beside(register, key, true, out, value)
}

// Public call: the last record before a key, as list gives one.
pub fn before(
    register: &[u8],
    key: &[u8],
    out: &mut [u8],
    value: &mut Value,
) -> Result<u32, Refusal>
    ensures answer { result ≡ list_answer (before_outcome register.now key.now (length out.old)) }
    ensures key { out.new ≡ list_key (before_outcome register.now key.now (length out.old)) (length out.old) }
    ensures value { value.new ≡ list_value (before_outcome register.now key.now (length out.old)) }
{
    beside(register, key, false, out, value)
}

// The record on one side of a key: the first at or after it, or the last before it.
fn beside(
    register: &[u8],
    key: &[u8],
    after: bool,
    out: &mut [u8],
    value: &mut Value,
) -> Result<u32, Refusal>
    ensures answer { result ≡ list_answer (beside_outcome after register.now key.now (length out.old)) }
    ensures key { out.new ≡ list_key (beside_outcome after register.now key.now (length out.old)) (length out.old) }
    ensures value { value.new ≡ list_value (beside_outcome after register.now key.now (length out.old)) }
{
    with_rows(
        register,
        &mut |index, chains| beside_with_rows(register, key, after, index, chains, out, value),
    )
}

// Public call: the register of the records from a first key up to and including a last.
pub fn run(register: &[u8], first: &[u8], last: &[u8], out: &mut [u8]) -> Result<u32, Refusal>
    ensures answer { result ≡ answer_of (run_outcome register.now first.now last.now (length out.old)) }
    ensures output { out.new ≡ output_of (run_outcome register.now first.now last.now (length out.old)) (length out.old) }
{
    with_rows(
        register,
        &mut |index, chains| run_with_rows(register, first, last, index, chains, out),
    )
}

// The call on a head by value: the register with a value set under a key. Its table is written with zeros after it, its length is answered and
// the head goes on to its own. On refusal the output is zero and the head as it was lent, as they are after each call below.
pub fn put(register: &[u8], head: Head, key: &[u8], value: &[u8], out: &mut [u8]) -> Headed
    ensures headed { result ≡ headed (put_outcome register.now head key.now value.now (length out.old)) head }
    ensures output { out.new ≡ moved_output (put_outcome register.now head key.now value.now (length out.old)) (length out.old) }
{
    set_value(register, head, key, value, false, out)
}

// The same, but of two values under the key the greater is kept.
pub fn join(register: &[u8], head: Head, key: &[u8], value: &[u8], out: &mut [u8]) -> Headed
    ensures headed { result ≡ headed (join_outcome register.now head key.now value.now (length out.old)) head }
    ensures output { out.new ≡ moved_output (join_outcome register.now head key.now value.now (length out.old)) (length out.old) }
{
    set_value(register, head, key, value, true, out)
}

// Put, or join.
fn set_value(
    register: &[u8],
    head: Head,
    key: &[u8],
    value: &[u8],
    greater: bool,
    out: &mut [u8],
) -> Headed
    ensures headed { result ≡ headed (set_outcome greater register.now head key.now value.now (length out.old)) head }
    ensures output { out.new ≡ moved_output (set_outcome greater register.now head key.now value.now (length out.old)) (length out.old) }
{
    with_rows(
        register,
        &mut |index, chains| set_value_with_rows(
            register, head, key, value, greater, index, chains, out,
        ),
    )
}

// The call on a head by value: the register without a key.
pub fn remove(register: &[u8], head: Head, key: &[u8], out: &mut [u8]) -> Headed
    ensures headed { result ≡ headed (remove_outcome register.now head key.now (length out.old)) head }
    ensures output { out.new ≡ moved_output (remove_outcome register.now head key.now (length out.old)) (length out.old) }
{
    with_rows(
        register,
        &mut |index, chains| remove_with_rows(register, head, key, index, chains, out),
    )
}
