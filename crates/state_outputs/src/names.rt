// The key of a state.
ghost use Rattle.std.specs.Prelude.{◌≤◌, ◌≡◌, length, take};
ghost use Rattle.limits.specs.Limits.{longest_key};
ghost use Rattle.state_outputs.specs.Outputs.{KeyOf};

use bytestring::write_bytes;
use limits::LONGEST_KEY;

// What stands before the name.
const BEFORE_NAME: [u8; 6] = *b"state/";

// The key of the state of this name, at the front of the buffer. Its length. Where the key would be too long for any key, the empty string
// stands for it, which is no lawful key either.
pub fn state_key(name: &[u8], key: &mut [u8]) -> usize
    requires { length key.old ≡ longest_key }
    ensures fits { result ≤ longest_key }
    ensures says { KeyOf name.now (take result key.new) }
{
    if LONGEST_KEY - BEFORE_NAME.len() < name.len() {
        return 0;
    }
    write_bytes(key, &BEFORE_NAME);
    write_bytes(&mut key[BEFORE_NAME.len()..], name);
    BEFORE_NAME.len() + name.len()
}
