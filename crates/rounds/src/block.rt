// FIPS 180-4, section 6.2.2, steps 2 to 4: the 64 rounds.
ghost use Rattle.std.specs.Prelude.{◌≡◌};
ghost use Rattle.std.specs.List.{fold};
ghost use Rattle.fips180.specs.Words.{Ch};
ghost use Rattle.fips180.specs.Hash.{round, rounds, plus};
ghost use Rattle.rounds.specs.Inner.{Sums};

use fips180::{State, big_sigma_0, big_sigma_1, maj};

// The constants of the 64 rounds.
const ROUND: [u32; 64] = [
    0x428a_2f98,
    0x7137_4491,
    0xb5c0_fbcf,
    0xe9b5_dba5,
    0x3956_c25b,
    0x59f1_11f1,
    0x923f_82a4,
    0xab1c_5ed5,
    0xd807_aa98,
    0x1283_5b01,
    0x2431_85be,
    0x550c_7dc3,
    0x72be_5d74,
    0x80de_b1fe,
    0x9bdc_06a7,
    0xc19b_f174,
    0xe49b_69c1,
    0xefbe_4786,
    0x0fc1_9dc6,
    0x240c_a1cc,
    0x2de9_2c6f,
    0x4a74_84aa,
    0x5cb0_a9dc,
    0x76f9_88da,
    0x983e_5152,
    0xa831_c66d,
    0xb003_27c8,
    0xbf59_7fc7,
    0xc6e0_0bf3,
    0xd5a7_9147,
    0x06ca_6351,
    0x1429_2967,
    0x27b7_0a85,
    0x2e1b_2138,
    0x4d2c_6dfc,
    0x5338_0d13,
    0x650a_7354,
    0x766a_0abb,
    0x81c2_c92e,
    0x9272_2c85,
    0xa2bf_e8a1,
    0xa81a_664b,
    0xc24b_8b70,
    0xc76c_51a3,
    0xd192_e819,
    0xd699_0624,
    0xf40e_3585,
    0x106a_a070,
    0x19a4_c116,
    0x1e37_6c08,
    0x2748_774c,
    0x34b0_bcb5,
    0x391c_0cb3,
    0x4ed8_aa4a,
    0x5b9c_ca4f,
    0x682e_6ff3,
    0x748f_82ee,
    0x78a5_636f,
    0x84c8_7814,
    0x8cc7_0208,
    0x90be_fffa,
    0xa450_6ceb,
    0xbef9_a3f7,
    0xc671_78f2,
];

// Ch of section 4.1.2 by one step less than there, since each round waits for it.
fn ch_of(x: u32, y: u32, z: u32) -> u32
    ensures { result ≡ Ch x y z }
{
    (x & (y ^ z)) ^ z
}

// One round, by the sum of its constant and its word: a round whose constant is 0.
fn round_of(s: State, v: u32) -> State
    ensures { result ≡ round s 0 v }
{
    let t1 = s
        .h
        .wrapping_add(big_sigma_1(s.e))
        .wrapping_add(ch_of(s.e, s.f, s.g))
        .wrapping_add(v);
    let t2 = big_sigma_0(s.a).wrapping_add(maj(s.a, s.b, s.c));
    State {
        a: t1.wrapping_add(t2),
        b: s.a,
        c: s.b,
        d: s.c,
        e: s.d.wrapping_add(t1),
        f: s.e,
        g: s.f,
        h: s.g,
    }
}

// The rounds of these sums, one after the other.
fn rounds_by(s: State, sums: &[u32]) -> State
    ensures { result ≡ fold (λ x v. round x 0 v) s sums.now }
{
    sums.iter().fold(s, |x, v| round_of(x, *v))
}

// The sums of the constants and the words of a schedule.
fn sums(w: &[u32; 64]) -> [u32; 64]
    ensures { Sums w.now result }
{
    let mut v = ROUND;
    for t in 0..64 {
        v[t] = v[t].wrapping_add(w[t]);
    }
    v
}

// The sum of two hash values, word by word.
#[tactic(auto, unfolding(fips180::specs::Hash::plus))]
fn plus_of(s: State, t: State) -> State
    ensures { result ≡ plus s t }
{
    State {
        a: s.a.wrapping_add(t.a),
        b: s.b.wrapping_add(t.b),
        c: s.c.wrapping_add(t.c),
        d: s.d.wrapping_add(t.d),
        e: s.e.wrapping_add(t.e),
        f: s.f.wrapping_add(t.f),
        g: s.g.wrapping_add(t.g),
        h: s.h.wrapping_add(t.h),
    }
}

// The hash value after the block whose schedule is w. Eight rounds in a turn are faster than one loop over all 64.
pub fn rounds_of(s: State, w: &[u32; 64]) -> State
    ensures { result ≡ plus (rounds 64 w.now s) s }
{
    let v = sums(w);
    let mut x = s;
    for k in 0..8 {
        x = rounds_by(x, &v[8 * k..8 * k + 8]);
    }
    plus_of(x, s)
}
