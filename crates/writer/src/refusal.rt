// What a writing call does that refuses.
ghost use Rattle.std.specs.Prelude.{◌≡◌, length};
ghost use Rattle.bytestring.specs.Bytes.{zeros};

use answer::Refusal;
use bytestring::clear;
use head::{Head, Headed};

// A refusal: it is answered, and the output is zero.
pub fn refuse<T>(out: &mut [u8], refusal: Refusal) -> Result<T, Refusal>
    ensures answer { result ≡ Err refusal }
    ensures output { out.new ≡ zeros (length out.old) }
{
    clear(out);
    Err(refusal)
}

// The same of a call that is lent a head: it is as it was lent.
pub fn refuse_headed(out: &mut [u8], refusal: Refusal, head: Head) -> Headed
    ensures headed { result ≡ record { answer = Err refusal; head = head } }
    ensures output { out.new ≡ zeros (length out.old) }
{
    let answer = refuse(out, refusal);
    let kept = head;
    Headed { answer, head: kept }
}
