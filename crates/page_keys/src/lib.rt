// The keys of one page, in buffers: how a key is made from the one before it, and the tests on it. A key may be longer than its buffer: its
// length is kept beside it. The functions are for the crates above and no public calls.
#![tactic(auto)]

ghost use Rattle.std.specs.Prelude.{◌≡◌, true, List, [], ℕ, ◌+◌, ◌≤◌, ◌<◌, length, take, drop};
ghost use Rattle.limits.specs.Limits.{numbers, longest_key};
ghost use Rattle.page.specs.Reading.{times, read};
ghost use Rattle.page.specs.Page.{entry, RawEntry};
ghost use Rattle.tree.specs.OnePage.{prefixes_of};
ghost use Rattle.page_keys.specs.Buffer.{Extended, PrefixIs, LawfulIs, RisesIs};

use bytestring::write_bytes;
use key_calls::slash;
use key_order::compare;
use page_reader::read_entry;

// The key held goes on after its first bytes, as many as it shares, with n bytes of s. The new length.
pub fn extend_key(
    buffer: &mut [u8],
    size: usize,
    s: &[u8],
    shares: usize,
    at: usize,
    n: usize,
) -> usize
    requires { (at + n ≤ length s.now) × (shares < numbers) × (n < numbers) }
    ensures { Extended buffer.old size s.now shares at n buffer.new result }
{
    let keep = shares.min(size);
    if buffer.len() <= keep {
        return keep + n;
    }
    let end = at + n.min(buffer.len() - keep);
    write_bytes(&mut buffer[keep..], &s[at..end]);
    keep + n
}

// Whether a prefix length is the count of bytes shared with the key held. No prefix is right that goes past the buffer's end.
pub fn prefix_fits(buffer: &[u8], size: usize, s: &[u8], shares: usize, at: usize, n: usize) -> bool
    requires { at + n ≤ length s.now }
    ensures says { PrefixIs buffer.now size s.now shares at n result }
    ensures short { result ≡ true → shares < length buffer.now }
{
    if buffer.len() <= shares {
        return false;
    }
    if size < shares {
        return false;
    }
    if size == shares {
        return true;
    }
    if n == 0 {
        return true;
    }
    buffer[shares] != s[at]
}

// Whether the prefix lengths of the n entries from first on are right. The buffer has room for every byte that a prefix can reach.
pub fn prefixes_fit(s: &[u8], first: usize, n: usize, buffer: &mut [u8]) -> bool
    requires { (numbers ≤ length buffer.old) × (first ≤ length s.now) }
    ensures { (es : List RawEntry) (past : ℕ) → times n entry (drop first s.now) ≡ read es (drop past s.now) → result ≡ prefixes_of [] es }
{
    let mut size = 0;
    let mut at = first;
    for i in 0..n {
        let Ok(e) = read_entry(s, at) else {
            return true;
        };
        let shares = e.shares;
        let remainder = e.remainder;
        let length = e.size;
        if !prefix_fits(buffer, size, s, shares, remainder, length) {
            return false;
        }
        size = extend_key(buffer, size, s, shares, remainder, length);
        at = e.end;
    }
    true
}

// Whether the key in a buffer keeps the key rule. A key longer than the buffer does not.
pub fn key_is_lawful(buffer: &[u8], size: usize) -> bool
    requires { longest_key ≤ length buffer.now }
    ensures { LawfulIs buffer.now size result }
{
    if buffer.len() < size {
        return false;
    }
    slash(&buffer[..size]).is_ok()
}

// Whether the key in a buffer is greater than the last key.
pub fn key_rises(last: &[u8], last_size: usize, buffer: &[u8], size: usize) -> bool
    ensures { RisesIs last.now last_size buffer.now size result }
{
    if last.len() < last_size {
        return false;
    }
    if buffer.len() < size {
        return false;
    }
    compare(&last[..last_size], &buffer[..size]).is_lt()
}

// The key in the buffer becomes the last key, unless it is longer than the buffer.
pub fn remember(last: &mut [u8], buffer: &[u8], size: usize)
    requires { length buffer.now ≡ length last.old }
    ensures { size ≤ length buffer.now → take size last.new ≡ take size buffer.now }
{
    if buffer.len() < size {
        return;
    }
    write_bytes(last, &buffer[..size]);
}
