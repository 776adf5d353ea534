// FIPS 180-4, sections 5.1.1 and 6.2: the blocks of a message and its padding.
ghost use Rattle.std.specs.Prelude.{◌≡◌, ◌++◌, ◌+◌, ◌-◌, ◌*◌, ◌/◌, ◌≤◌, length};
ghost use Rattle.std.proofs.Math.Seq.{paste};
ghost use Rattle.bytestring.specs.Bytes.{zeros};
ghost use Rattle.fips180.specs.Hash.{H0, after_blocks, bytes64, ending, words, bytes_of};
ghost use Rattle.fips180.specs.Hash.{hash as hashed};

use fips180::State;
use rounds::compress;

// The hash value s after the first n groups of LANES blocks of m, with room for their WORDS words.
fn absorb<const LANES: usize, const WORDS: usize>(s: State, m: &[u8], n: usize) -> State
    requires { (LANES ≤ 4) × (WORDS ≡ 64 * LANES) × (64 * LANES * n ≤ length m.now) }
    ensures { result ≡ after_blocks (LANES * n) s m.now }
{
    // Without a group no room is cleared.
    if n == 0 {
        return s;
    }
    let mut w = [0; WORDS];
    let mut x = s;
    for k in 0..n {
        let at = 64 * LANES * k;
        x = compress::<LANES>(x, &mut w, &m[at..at + 64 * LANES]);
    }
    x
}

// The hash value after all whole blocks of m: four beside each other, and those that are left one by one.
fn absorb_whole(m: &[u8]) -> State
    ensures { result ≡ after_blocks (length m.now / 64) H0 m.now }
{
    let fours = m.len() / 256;
    let x = absorb::<4, 256>(start(), m, fours);
    let rest = &m[256 * fours..];
    absorb::<1, 64>(x, rest, rest.len() / 64)
}

// The initial hash value.
fn start() -> State
    ensures { result ≡ H0 }
{
    State {
        a: 0x6a09_e667,
        b: 0xbb67_ae85,
        c: 0x3c6e_f372,
        d: 0xa54f_f53a,
        e: 0x510e_527f,
        f: 0x9b05_688c,
        g: 0x1f83_d9ab,
        h: 0x5be0_cd19,
    }
}

// The length of n bytes in bits, as eight big-endian bytes. What the product by 8 would carry past 64 bits is left out.
fn length_bytes(n: u64) -> [u8; 8]
    ensures { result ≡ bytes64 (8 * n) }
{
    n.wrapping_mul(8).to_be_bytes()
}

// The eight words as 32 bytes.
pub fn digest_bytes(s: State) -> [u8; 32]
    ensures { result ≡ bytes_of (words s) }
{
    let words = [
        s.a.to_be_bytes(),
        s.b.to_be_bytes(),
        s.c.to_be_bytes(),
        s.d.to_be_bytes(),
        s.e.to_be_bytes(),
        s.f.to_be_bytes(),
        s.g.to_be_bytes(),
        s.h.to_be_bytes(),
    ];
    let mut digest = [0; 32];
    digest.copy_from_slice(words.as_flattened());
    digest
}

// src, written into t from at on.
fn paste_bytes(t: &mut [u8], at: usize, src: &[u8])
    requires { at + length src.now ≤ length t.old }
    ensures { t.new ≡ paste t.old at src.now (length src.now) }
{
    t[at..at + src.len()].copy_from_slice(src);
}

// In t, which has zeros: the last j blocks of a padded message of n bytes, whose last bytes are rest.
fn last_blocks(t: &mut [u8], rest: &[u8], n: u64, j: usize)
    requires { (t.old ≡ zeros 128) × (j ≤ 2) × (length rest.now + 9 ≤ 64 * j) }
    ensures { t.new ≡ ending rest.now (64 * j - 9 - length rest.now) n ++ zeros (128 - 64 * j) }
{
    paste_bytes(t, 0, rest);
    paste_bytes(t, rest.len(), &[0x80]);
    paste_bytes(t, 64 * j - 8, &length_bytes(n));
}

// The eight words of a message's digest.
pub fn hash(input: &[u8]) -> State
    ensures { result ≡ hashed input.now }
{
    let n = input.len();
    let q = n / 64;
    let at = 64 * q;
    let x = absorb_whole(input);
    let rest = &input[at..];
    let j = (rest.len() + 8) / 64 + 1;
    let mut t = [0; 128];
    last_blocks(&mut t, rest, n as u64, j);
    absorb::<1, 64>(x, &t, j)
}
