// FIPS 180-4: the definitions of SHA-256 are in specs/. Here are the hash value and the functions on words, for the crates
// above; none of them is a public call.
#![tactic(auto)]

ghost use Rattle.std.specs.Prelude.{◌≡◌, ◌+◌, ◌<◌, ◌≤◌, length, bit_xor};
ghost use Rattle.std.specs.Int.{w32, rotate_right};
ghost use Rattle.fips180.specs.Words.{shr, Maj, Σ0, Σ1, σ0, σ1};
ghost use Rattle.fips180.specs.Hash.{word};

// A hash value, and the working variables of the rounds: eight words, by the standard's names, which specs/Hash.antt has too.
#[derive(Clone, Copy)]
pub struct State {
    pub a: u32,
    pub b: u32,
    pub c: u32,
    pub d: u32,
    pub e: u32,
    pub f: u32,
    pub g: u32,
    pub h: u32,
}

// Section 4.1.2: the functions on words but Ch, which the rounds have in a shorter form.
pub fn maj(x: u32, y: u32, z: u32) -> u32
    ensures { result ≡ Maj x y z }
{
    (x & y) ^ (x & z) ^ (y & z)
}

// What the two Σ have in common: three rotations.
fn big_sigma<const P: u32, const Q: u32, const R: u32>(x: u32) -> u32
    ensures { result ≡ bit_xor (bit_xor (rotate_right w32 x P) (rotate_right w32 x Q)) (rotate_right w32 x R) }
{
    x.rotate_right(P) ^ x.rotate_right(Q) ^ x.rotate_right(R)
}

pub fn big_sigma_0(x: u32) -> u32
    ensures { result ≡ Σ0 x }
{
    big_sigma::<2, 13, 22>(x)
}

pub fn big_sigma_1(x: u32) -> u32
    ensures { result ≡ Σ1 x }
{
    big_sigma::<6, 11, 25>(x)
}

// What the two σ have in common: two rotations and a shift.
fn small_sigma<const P: u32, const Q: u32, const R: u32>(x: u32) -> u32
    requires { R < 32 }
    ensures { result ≡ bit_xor (bit_xor (rotate_right w32 x P) (rotate_right w32 x Q)) (shr R x) }
{
    x.rotate_right(P) ^ x.rotate_right(Q) ^ (x >> R)
}

pub fn small_sigma_0(x: u32) -> u32
    ensures { result ≡ σ0 x }
{
    small_sigma::<7, 18, 3>(x)
}

pub fn small_sigma_1(x: u32) -> u32
    ensures { result ≡ σ1 x }
{
    small_sigma::<17, 19, 10>(x)
}

// The big-endian word at byte i.
pub fn load(m: &[u8], i: usize) -> u32
    requires { i + 4 ≤ length m.now }
    ensures { result ≡ word m.now i }
{
    u32::from_be_bytes([m[i], m[i + 1], m[i + 2], m[i + 3]])
}
