// FIPS 180-4, section 6.2.2: the blocks of a message. None of these is a public call.
#![tactic(auto)]

mod block; // the rounds of one block
mod schedule; // the words of some blocks beside each other

ghost use Rattle.std.specs.Prelude.{◌≡◌, ◌*◌, length};
ghost use Rattle.fips180.specs.Hash.{after_blocks};
ghost use Rattle.fips180.specs.Hash.{compress as compressed};

use fips180::State;

// The hash value after one more block, with room of its own for the block's words.
pub fn compress_of(s: State, m: &[u8]) -> State
    requires { length m.now ≡ 64 }
    ensures { result ≡ compressed s m.now }
{
    compress::<1>(s, &mut [0; 64], m)
}

// The hash value after LANES more blocks, with room in w for their words. The schedules stand before the first round.
pub fn compress<const LANES: usize>(s: State, w: &mut [u32], m: &[u8]) -> State
    requires { (length w.old ≡ 64 * LANES) × (length m.now ≡ 64 * LANES) }
    ensures { result ≡ after_blocks LANES s m.now }
{
    schedule::schedules_of::<LANES>(w, m);
    let mut x = s;
    for i in 0..LANES {
        x = block::rounds_of(x, &schedule::schedule_at::<LANES>(w, i));
    }
    x
}
