// SHA-256 of FIPS 180-4.
#![tactic(auto)]

mod message; // padding, the blocks of a message

ghost use Rattle.std.specs.Prelude.{◌≡◌};
ghost use Rattle.fips180.specs.Hash.{hash, words, sha256};
ghost use Rattle.sha256.specs.Digest.{digest_answer, digest_output};

use answer::Refusal;
use limits::LONGEST;

// Public call: the digest of the input, written to out; for an input that is too long, number 1 and zeros.
#[tactic(auto, unfolding(crate::specs::Digest::digest_answer, crate::specs::Digest::digest_output))]
pub fn digest(input: &[u8], out: &mut [u8; 32]) -> Result<u32, Refusal>
    ensures answer { result ≡ digest_answer input.now }
    ensures output { out.new ≡ digest_output input.now }
{
    if input.len() <= LONGEST {
        *out = digest_of(input);
        Ok(0)
    } else {
        *out = [0u8; 32];
        Err(Refusal::TooLong)
    }
}

// For the crates above, no public call: the digest of any input.
#[tactic(auto, unfolding(fips180::specs::Hash::sha256))]
pub fn digest_of(input: &[u8]) -> [u8; 32]
    ensures { result ≡ sha256 input.now }
{
    message::digest_bytes(message::hash(input))
}

// For the crates above, no public call: the digest of any input, as eight words.
pub fn digest_words(input: &[u8]) -> [u32; 8]
    ensures { result ≡ words (hash input.now) }
{
    let s = message::hash(input);
    [s.a, s.b, s.c, s.d, s.e, s.f, s.g, s.h]
}
