// The name of a collection: whether it is one, and where its records begin and end.
ghost use Rattle.std.specs.Prelude.{◌≡◌, [], ◌∷◌, ◌++◌, ◌≤◌, ◌<◌, length};
ghost use Rattle.limits.specs.Limits.{longest_key};
ghost use Rattle.tree.specs.Judge.{judge};
ghost use Rattle.judge.specs.Standing.{Stands};
ghost use Rattle.row.specs.Search.{count_below};
ghost use Rattle.reading.specs.Positions.{accepted_records};
ghost use Rattle.collections.specs.Screen.{is_collection_name};

use bytestring::write_bytes;
use judge::accepted::Accepted;
use key_calls::slash;
use limits::LONGEST_KEY;
use reading::accepted::lower_bound;

// Whether the name is that of a collection: with a slash and the letter a behind it, it is a lawful key then, and only then.
pub(crate) fn is_collection_name(name: &[u8]) -> bool
    ensures { result ≡ is_collection_name name.now }
{
    let n = name.len();
    if LONGEST_KEY - 2 < n {
        return false;
    }
    let mut key = [b'a'; LONGEST_KEY];
    write_bytes(&mut key, name);
    key[n] = b'/';
    slash(&key[..n + 2]).is_ok()
}

// How many records stand before a name with one byte behind it.
pub(crate) fn count_before(accepted: &Accepted, name: &[u8], next: u8) -> usize
    requires { Stands accepted.now × (length name.now < longest_key) }
    ensures number { result ≡ count_below (name.now ++ (next ∷ [])) (accepted_records (judge accepted.now.register.now)) }
    ensures within { result ≤ length accepted.now.index.now }
{
    let n = name.len();
    let mut key = [next; LONGEST_KEY];
    write_bytes(&mut key, name);
    lower_bound(accepted, &key[..n + 1])
}
