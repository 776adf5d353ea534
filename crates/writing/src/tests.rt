// The tests of a call's own arguments, in their order: the first refusal that is due, if any.
ghost use Rattle.std.specs.Prelude.{◌≡◌};
ghost use Rattle.tree.specs.Judge.{due};
ghost use Rattle.writing.specs.Tests.{answer_due, range_tests, record_tests};

use answer::Refusal;
use key_calls::slash;
use key_order::compare;
use value::{VALUE, is_codec};

// The two keys of a run.
pub fn test_range(first: &[u8], last: &[u8]) -> Result<(), Refusal>
    ensures { result ≡ answer_due (due (range_tests first.now last.now)) }
{
    slash(first)?;
    slash(last)?;
    if compare(last, first).is_lt() {
        return Err(Refusal::FirstAfterLast);
    }
    Ok(())
}

// The key and the value of put and join.
pub fn test_record(key: &[u8], value: &[u8]) -> Result<(), Refusal>
    ensures { result ≡ answer_due (due (record_tests key.now value.now)) }
{
    slash(key)?;
    if value.len() != VALUE {
        return Err(Refusal::WrongValue);
    }
    if !is_codec(value[0]) {
        return Err(Refusal::WrongValue);
    }
    Ok(())
}
