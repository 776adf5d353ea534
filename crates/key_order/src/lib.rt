// The order of keys, and the leading bytes that two share. The functions are for the crates above and no public calls.
#![tactic(auto)]

ghost use Rattle.std.specs.Prelude.{◌≡◌, true, ◌≤◌, length};
ghost use Rattle.key.specs.Key.{order, shared};
ghost use Rattle.key_order.specs.Inner.{SharedSoFar};

use std::cmp::Ordering;

// Whether two parts of keys of one length are the same. No branch stands between the bytes, so that eight can be compared at once: the
// slices' own `==` takes up to three times as long on parts of eight bytes.
fn same(a: &[u8], b: &[u8]) -> bool
    requires { length a.now ≡ length b.now }
    ensures { result ≡ true → a.now ≡ b.now }
{
    let mut same = true;
    for (x, y) in a.iter().zip(b) {
        same &= x == y;
    }
    same
}

// So many leading bytes two keys share at least, counted by eights.
fn shared_eights(a: &[u8], b: &[u8]) -> usize
    ensures { (result ≤ length a.now) × (result ≤ length b.now) × SharedSoFar a.now b.now result }
{
    let mut n = 0;
    for (x, y) in a.chunks_exact(8).zip(b.chunks_exact(8)) {
        if !same(x, y) {
            break;
        }
        n += 8;
    }
    n
}

// The number of leading bytes that two keys share.
pub fn shared_count(a: &[u8], b: &[u8]) -> usize
    ensures { result ≡ shared a.now b.now }
{
    let end = a.len().min(b.len());
    let (s, t) = (&a[..end], &b[..end]);
    // By an index: pairs of an iterator take up to half as long again on short keys.
    for i in shared_eights(s, t)..end {
        if s[i] != t[i] {
            return i;
        }
    }
    end
}

// The order of two keys: the first byte that differs decides.
pub fn compare(a: &[u8], b: &[u8]) -> Ordering
    ensures { result ≡ order a.now b.now }
{
    a.cmp(b)
}
