// Bytes of outputs.
ghost use Rattle.std.specs.Prelude.{◌≡◌, length};
ghost use Rattle.bytestring.specs.Bytes.{zeros};
ghost use Rattle.value.specs.Value.{value_length};

use answer::Refusal;
use bytestring::clear;
use value::{VALUE, Value};

// A refusal where a record is asked for: its number is answered, and both outputs are zero.
pub fn refuse_record(out: &mut [u8], value: &mut Value, refusal: Refusal) -> Result<u32, Refusal>
    ensures answer { result ≡ Err refusal }
    ensures key { out.new ≡ zeros (length out.old) }
    ensures value { value.new ≡ zeros value_length }
{
    clear(out);
    *value = [0u8; VALUE];
    Err(refusal)
}
