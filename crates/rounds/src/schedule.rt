// FIPS 180-4, section 6.2.2, step 1: the 64 words of each of LANES blocks. They stand beside each other: word t of block i at
// place LANES * t + i.
ghost use Rattle.std.specs.Prelude.{◌≡◌, ℕ, ◌+◌, ◌*◌, ◌<◌, ◌≤◌, List, length, take, drop};
ghost use Rattle.fips180.specs.Hash.{next, schedule};
ghost use Rattle.rounds.specs.Inner.{Beside};

use fips180::{load, small_sigma_0, small_sigma_1};

// A word of the schedule, from those 2, 7, 15 and 16 places before it.
fn next_word(w2: u32, w7: u32, w15: u32, w16: u32) -> u32
    ensures { result ≡ next w2 w7 w15 w16 }
{
    small_sigma_1(w2)
        .wrapping_add(w7)
        .wrapping_add(small_sigma_0(w15))
        .wrapping_add(w16)
}

// The words t of the blocks, which are read from them.
fn load_row<const LANES: usize>(w: &mut [u32], m: &[u8], t: usize)
    requires { (length w.old ≡ 64 * LANES) × (length m.now ≡ 64 * LANES) × (t < 16) }
    ensures { Beside LANES (LANES * t) m.now w.old → Beside LANES (LANES * (t + 1)) m.now w.new }
{
    for i in 0..LANES {
        w[LANES * t + i] = load(m, 64 * i + 4 * t);
    }
}

// The first 16 words of each block.
fn load_rows<const LANES: usize>(w: &mut [u32], m: &[u8])
    requires { (length w.old ≡ 64 * LANES) × (length m.now ≡ 64 * LANES) }
    ensures { Beside LANES (16 * LANES) m.now w.new }
{
    for t in 0..16 {
        load_row::<LANES>(w, m, t);
    }
}

// Eight words more of each block, from a place on. One loop over all places, each made of earlier ones in the same way, lets
// the compiler take four at a time, and one of eight turns is written out.
fn extend_eight<const LANES: usize>(w: &mut [u32], from: usize)
    requires { (length w.old ≡ 64 * LANES) × (16 * LANES ≤ from) × (from + 8 * LANES ≤ 64 * LANES) }
    ensures { (m : List ℕ) → Beside LANES from m w.old → Beside LANES (from + 8 * LANES) m w.new }
{
    for i in 0..8 * LANES {
        let p = from + i;
        w[p] = next_word(
            w[p - 2 * LANES],
            w[p - 7 * LANES],
            w[p - 15 * LANES],
            w[p - 16 * LANES],
        );
    }
}

// The schedules of the blocks.
pub fn schedules_of<const LANES: usize>(w: &mut [u32], m: &[u8])
    requires { (length w.old ≡ 64 * LANES) × (length m.now ≡ 64 * LANES) }
    ensures { Beside LANES (64 * LANES) m.now w.new }
{
    load_rows::<LANES>(w, m);
    for k in 2..8 {
        extend_eight::<LANES>(w, 8 * LANES * k);
    }
}

// The schedule of block i.
pub fn schedule_at<const LANES: usize>(w: &[u32], i: usize) -> [u32; 64]
    requires { (length w.now ≡ 64 * LANES) × (i < LANES) }
    ensures { (m : List ℕ) → Beside LANES (64 * LANES) m w.now → result ≡ schedule 64 (take 64 (drop (64 * i) m)) }
{
    let mut r = [0; 64];
    for t in 0..64 {
        r[t] = w[LANES * t + i];
    }
    r
}
