// The parts of the key rule. The functions are for this crate and no public calls.
ghost use Rattle.std.specs.Prelude.{◌≡◌, true, ◌+◌, ◌%◌, ◌≤◌, ◌<◌, length};
ghost use Rattle.key.specs.Key.{ordinary, is_dot_name};
ghost use Rattle.key_calls.specs.Inner.{has_bit, slash_or_end, OrdinaryFrom};

// The ordinary bytes 0 to 63, a bit for each.
const LOW: u64 = 0x07ff_6000_0000_0000;

// The ordinary bytes 64 to 127. Two words: with one of 128 bits a key of 10 bytes takes a third longer.
const HIGH: u64 = 0x47ff_fffe_87ff_fffe;

// The word in which a byte has its bit. It is chosen before the bit is read, so that no branch depends on a mix of digits and letters.
fn bits_for(b: u8) -> u64
    ensures { has_bit result (b % 64) ≡ ordinary b }
{
    match b {
        0..=63 => LOW,
        64..=127 => HIGH,
        _ => 0,
    }
}

// Whether a bit of a word is 1.
fn has_bit(word: u64, i: u8) -> bool
    requires { i < 64 }
    ensures { result ≡ has_bit word i }
{
    (word >> i) % 2 == 1
}

// Whether a byte may stand beside the slash.
fn is_ordinary(b: u8) -> bool
    ensures { result ≡ ordinary b }
{
    has_bit(bits_for(b), b % 64)
}

// The same by comparisons, for several bytes at once. Alone it becomes a chain of branches, and with it in place of the words a key of 10 bytes
// takes up to 30 percent longer; with `matches!` in place of both a key takes up to five times as long.
fn is_ordinary_compared(b: u8) -> bool
    ensures { result ≡ ordinary b }
{
    ((b'a' <= b) & (b <= b'z'))
        | ((b'A' <= b) & (b <= b'Z'))
        | ((b'0' <= b) & (b <= b'9'))
        | (b == b'.')
        | (b == b'-')
        | (b == b'_')
        | (b == b':')
        | (b == b'~')
}

// Whether eight bytes of a key from a place on are ordinary. No branch stands between the bytes, so that they can be compared at once. Written
// out: with a loop over a slice a key of 20 bytes takes up to 20 percent longer.
fn ordinary_eight(key: &[u8], i: usize) -> bool
    requires { i + 8 ≤ length key.now }
    ensures { result ≡ true → OrdinaryFrom key.now i (i + 8) }
{
    is_ordinary_compared(key[i])
        & is_ordinary_compared(key[i + 1])
        & is_ordinary_compared(key[i + 2])
        & is_ordinary_compared(key[i + 3])
        & is_ordinary_compared(key[i + 4])
        & is_ordinary_compared(key[i + 5])
        & is_ordinary_compared(key[i + 6])
        & is_ordinary_compared(key[i + 7])
}

// Where the ordinary bytes of a key from a place on end at the earliest, counted by eights; the last eight may begin among bytes that were
// passed. Where fewer bytes are left than these none is tried: an eight that has the slash costs more than it saves in a short key.
fn skip_ordinary(key: &[u8], from: usize, least: usize) -> usize
    requires { (from ≤ length key.now) × (8 ≤ least) }
    ensures { (from ≤ result) × (result ≤ length key.now) × OrdinaryFrom key.now from result }
{
    let n = key.len();
    if n - from < least {
        return from;
    }
    let mut i = from;
    // By an index: with an iterator over the eights a key of 20 bytes takes up to 20 percent longer.
    while 8 <= n - i {
        if !ordinary_eight(key, i) {
            return i;
        }
        i += 8;
    }
    if ordinary_eight(key, n - 8) {
        return n;
    }
    i
}

// Where the slash stands, if all other bytes are ordinary; otherwise the end of the key. Eights are passed over at the start and behind the
// slash, so the index leaps, and no `for` fits; two passes with a function of their own take up to 30 percent longer on short keys.
pub(crate) fn slash_or_end(key: &[u8]) -> usize
    ensures { result ≡ slash_or_end key.now }
{
    let n = key.len();
    let mut at = n;
    let mut i = skip_ordinary(key, 0, 16);
    // The position moves by eights behind the slash.
    while i < n {
        let b = key[i];
        if is_ordinary(b) {
            i += 1;
        } else {
            if b != b'/' {
                return n;
            }
            if at < n {
                return n;
            }
            at = i;
            i = skip_ordinary(key, i + 1, 8);
        }
    }
    at
}

// Whether a name is . or .., which no key may have.
pub(crate) fn is_dot_name(name: &[u8]) -> bool
    ensures { result ≡ is_dot_name name.now }
{
    matches!(name, [b'.'] | [b'.', b'.'])
}
