// The C interface. A slice is a pointer and a length. An answer is one number: the refusal's number alone, or 256 times the value. A head is
// lent: the call takes it by value and gives back the head to store.
#![tactic(auto)]

ghost use Rattle.std.specs.Prelude.{◌≡◌, length};
ghost use Rattle.answer.specs.Answer.{encoded, encoded_of_two};
ghost use Rattle.sha256.specs.Digest.{digest_answer, digest_output};
ghost use Rattle.key.specs.Key.{slash_answer};
ghost use Rattle.key.specs.Layer.{layer_answer};
ghost use Rattle.promises.specs.Counted.{counted_answer, counted_output};
ghost use Rattle.promises.specs.Difference.{difference_outcome};
ghost use Rattle.collections.specs.Screen.{screen_outcome};
ghost use Rattle.path.specs.Path.{path_outcome};
ghost use Rattle.path.specs.Verify.{verify_verdict, verify_answer};
ghost use Rattle.promises.specs.Range.{at_or_after_outcome, before_outcome, run_outcome};
ghost use Rattle.promises.specs.Outcome.{check_outcome, lookup_answer, list_outcome, list_answer, list_key, list_value, answer_of, output_of};
ghost use Rattle.promises.specs.Moved.{put_outcome, join_outcome, remove_outcome, merge_outcome, moved_answer, moved_output, moved_head};

use head::Head;
use value::{Digest, Value};

#[unsafe(no_mangle)]
pub extern "C" fn mijdegen_digest(input: &[u8], out: &mut Digest) -> u64
    ensures answer { result ≡ encoded (digest_answer input.now) }
    ensures output { out.new ≡ digest_output input.now }
{
    answer::encode(sha256::digest(input, out))
}

#[unsafe(no_mangle)]
pub extern "C" fn mijdegen_layer(input: &[u8]) -> u64
    ensures { result ≡ encoded (layer_answer input.now) }
{
    answer::encode(key_calls::layer(input))
}

#[unsafe(no_mangle)]
pub extern "C" fn mijdegen_slash(input: &[u8]) -> u64
    ensures { result ≡ encoded (slash_answer input.now) }
{
    answer::encode(key_calls::slash(input))
}

#[unsafe(no_mangle)]
pub extern "C" fn mijdegen_check(lent: &[u8], head: &mut Head) -> u64
    ensures answer { result ≡ encoded (check_outcome lent.now).answer }
    ensures head { head.new ≡ (check_outcome lent.now).head }
{
    let made = register::check(lent);
    *head = made.head;
    answer::encode(made.answer)
}

#[unsafe(no_mangle)]
pub extern "C" fn mijdegen_lookup(lent: &[u8], sought: &[u8]) -> u64
    ensures { result ≡ encoded_of_two (lookup_answer lent.now sought.now) }
{
    answer::encode(register::lookup(lent, sought))
}

#[unsafe(no_mangle)]
pub extern "C" fn mijdegen_list(lent: &[u8], n: u64, out: &mut [u8], value: &mut Value) -> u64
    ensures answer { result ≡ encoded (list_answer (list_outcome lent.now n (length out.old))) }
    ensures key { out.new ≡ list_key (list_outcome lent.now n (length out.old)) (length out.old) }
    ensures value { value.new ≡ list_value (list_outcome lent.now n (length out.old)) }
{
    answer::encode(register::list(lent, n, out, value))
}

#[unsafe(no_mangle)]
pub extern "C" fn mijdegen_at_or_after(
    lent: &[u8],
    sought: &[u8],
    out: &mut [u8],
    value: &mut Value,
) -> u64
    ensures answer { result ≡ encoded (list_answer (at_or_after_outcome lent.now sought.now (length out.old))) }
    ensures key { out.new ≡ list_key (at_or_after_outcome lent.now sought.now (length out.old)) (length out.old) }
    ensures value { value.new ≡ list_value (at_or_after_outcome lent.now sought.now (length out.old)) }
{
    answer::encode(register::at_or_after(lent, sought, out, value))
}

#[unsafe(no_mangle)]
pub extern "C" fn mijdegen_before(
    lent: &[u8],
    sought: &[u8],
    out: &mut [u8],
    value: &mut Value,
) -> u64
    ensures answer { result ≡ encoded (list_answer (before_outcome lent.now sought.now (length out.old))) }
    ensures key { out.new ≡ list_key (before_outcome lent.now sought.now (length out.old)) (length out.old) }
    ensures value { value.new ≡ list_value (before_outcome lent.now sought.now (length out.old)) }
{
    answer::encode(register::before(lent, sought, out, value))
}

#[unsafe(no_mangle)]
pub extern "C" fn mijdegen_run(lent: &[u8], first: &[u8], last: &[u8], out: &mut [u8]) -> u64
    ensures answer { result ≡ encoded (answer_of (run_outcome lent.now first.now last.now (length out.old))) }
    ensures output { out.new ≡ output_of (run_outcome lent.now first.now last.now (length out.old)) (length out.old) }
{
    answer::encode(register::run(lent, first, last, out))
}

#[unsafe(no_mangle)]
pub extern "C" fn mijdegen_put(
    lent: &[u8],
    head: &mut Head,
    sought: &[u8],
    value: &[u8],
    out: &mut [u8],
) -> u64
    ensures answer { result ≡ encoded (moved_answer (put_outcome lent.now head.old sought.now value.now (length out.old))) }
    ensures head { head.new ≡ moved_head (put_outcome lent.now head.old sought.now value.now (length out.old)) head.old }
    ensures output { out.new ≡ moved_output (put_outcome lent.now head.old sought.now value.now (length out.old)) (length out.old) }
{
    let moved = register::put(lent, *head, sought, value, out);
    *head = moved.head;
    answer::encode(moved.answer)
}

#[unsafe(no_mangle)]
pub extern "C" fn mijdegen_join(
    lent: &[u8],
    head: &mut Head,
    sought: &[u8],
    value: &[u8],
    out: &mut [u8],
) -> u64
    ensures answer { result ≡ encoded (moved_answer (join_outcome lent.now head.old sought.now value.now (length out.old))) }
    ensures head { head.new ≡ moved_head (join_outcome lent.now head.old sought.now value.now (length out.old)) head.old }
    ensures output { out.new ≡ moved_output (join_outcome lent.now head.old sought.now value.now (length out.old)) (length out.old) }
{
    let moved = register::join(lent, *head, sought, value, out);
    *head = moved.head;
    answer::encode(moved.answer)
}

#[unsafe(no_mangle)]
pub extern "C" fn mijdegen_remove(
    lent: &[u8],
    head: &mut Head,
    sought: &[u8],
    out: &mut [u8],
) -> u64
    ensures answer { result ≡ encoded (moved_answer (remove_outcome lent.now head.old sought.now (length out.old))) }
    ensures head { head.new ≡ moved_head (remove_outcome lent.now head.old sought.now (length out.old)) head.old }
    ensures output { out.new ≡ moved_output (remove_outcome lent.now head.old sought.now (length out.old)) (length out.old) }
{
    let moved = register::remove(lent, *head, sought, out);
    *head = moved.head;
    answer::encode(moved.answer)
}

#[unsafe(no_mangle)]
pub extern "C" fn mijdegen_merge(
    first: &[u8],
    head: &mut Head,
    second: &[u8],
    out: &mut [u8],
) -> u64
    ensures answer { result ≡ encoded (moved_answer (merge_outcome first.now head.old second.now (length out.old))) }
    ensures head { head.new ≡ moved_head (merge_outcome first.now head.old second.now (length out.old)) head.old }
    ensures output { out.new ≡ moved_output (merge_outcome first.now head.old second.now (length out.old)) (length out.old) }
{
    let moved = merging::merge(first, *head, second, out);
    *head = moved.head;
    answer::encode(moved.answer)
}

#[unsafe(no_mangle)]
pub extern "C" fn mijdegen_difference(first: &[u8], second: &[u8], out: &mut [u8]) -> u64
    ensures answer { result ≡ encoded_of_two (counted_answer (difference_outcome first.now second.now (length out.old))) }
    ensures output { out.new ≡ counted_output (difference_outcome first.now second.now (length out.old)) (length out.old) }
{
    answer::encode(differing::difference(first, second, out))
}

#[unsafe(no_mangle)]
pub extern "C" fn mijdegen_screen(lent: &[u8], collection: &[u8], n: u64, out: &mut [u8]) -> u64
    ensures answer { result ≡ encoded_of_two (counted_answer (screen_outcome lent.now collection.now n (length out.old))) }
    ensures output { out.new ≡ counted_output (screen_outcome lent.now collection.now n (length out.old)) (length out.old) }
{
    answer::encode(screen::screen(lent, collection, n, out))
}

#[unsafe(no_mangle)]
pub extern "C" fn mijdegen_path(lent: &[u8], sought: &[u8], out: &mut [u8]) -> u64
    ensures answer { result ≡ encoded (answer_of (path_outcome lent.now sought.now (length out.old))) }
    ensures output { out.new ≡ output_of (path_outcome lent.now sought.now (length out.old)) (length out.old) }
{
    answer::encode(path_writer::path(lent, sought, out))
}

#[unsafe(no_mangle)]
pub extern "C" fn mijdegen_verify(lent: &[u8], sought: &[u8], root: &[u8]) -> u64
    ensures { result ≡ encoded_of_two (verify_answer lent.now (verify_verdict lent.now sought.now root.now)) }
{
    answer::encode(path_reader::verify(lent, sought, root))
}
