// The records of the state register, whose values name the roots of the states' trees.
ghost use Rattle.std.specs.Prelude.{◌≡◌, true, IfSome, ◌+◌, ◌≤◌, ◌<◌, length};
ghost use Rattle.bytestring.specs.Bytes.{equal};
ghost use Rattle.key.specs.Key.{collection, lawful};
ghost use Rattle.states.specs.States.{state_collection};
ghost use Rattle.index.specs.Accepted.{AcceptedIndex};
ghost use Rattle.states_reader.specs.Inner.{RootsSay, OwnSays};

use crate::KEPT;
use bytestring::same_bytes;
use limits::LONGEST_KEY;
use links::FROM_FIRST;
use row::recall::recall;
use row::search::search;
use value::{DAG_CBOR, codec_at};

// The bytes that the keys of states begin with.
const BEGIN: usize = 6;

// Whether a lawful key is of the collection `state`.
fn is_state_key(key: &[u8]) -> bool
    requires { lawful key.now ≡ true }
    ensures { result ≡ equal (collection key.now) state_collection }
{
    if key.len() < BEGIN {
        return false;
    }
    same_bytes(&key[..BEGIN], b"state/")
}

// The words of the records' digests, as roots and after the first m words. Whether all records are of the collection `state` with codec 71.
pub(crate) fn note_roots(
    states: &[u8],
    index: &[u64],
    count: usize,
    roots: &mut [u32],
    words: &mut [u32],
    m: usize,
) -> bool
    requires { AcceptedIndex states.now index.now count × (count ≤ length roots.old) × (m + count ≤ length words.old) }
    ensures { RootsSay states.now index.now count words.old m result roots.new words.new }
{
    let mut keys = [0u8; KEPT * LONGEST_KEY];
    let mut notes = [0u64; KEPT];
    for i in 0..count {
        let found = recall(states, states, index[i], 0, &mut keys, &mut notes);
        let from = found.from;
        let to = from + found.size;
        let value = found.value;
        if !is_state_key(&keys[from..to]) {
            return false;
        }
        if codec_at(states, value) != DAG_CBOR {
            return false;
        }
        // The states are the first string.
        let word = FROM_FIRST + value as u32;
        roots[i] = word;
        words[m + i] = word;
    }
    true
}

// The position of the key's record, if there is one.
pub(crate) fn own_position(states: &[u8], index: &[u64], count: usize, key: &[u8]) -> Option<usize>
    requires { AcceptedIndex states.now index.now count }
    ensures says { OwnSays states.now index.now count key.now result }
    ensures within { IfSome result (λ own. own < count) }
{
    let Ok((position, _)) = search(states, index, count, key) else {
        return None;
    };
    Some(position)
}
