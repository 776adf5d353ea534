// Layers. The functions are for the crates above and no public calls.
ghost use Rattle.std.specs.Prelude.{◌≡◌};
ghost use Rattle.fips180.specs.Hash.{bytes_of};
ghost use Rattle.key.specs.Layer.{bits_of, leading_zero_bits, layer_of};

// The leading zero bits of a digest of eight words: those of each word, summed until a word that is not zero.
fn leading_zero_bits(words: [u32; 8]) -> u32
    ensures { result ≡ leading_zero_bits (bits_of (bytes_of words)) }
{
    let mut n: u32 = 0;
    for word in words {
        n += word.leading_zeros();
        if word != 0 {
            break;
        }
    }
    n
}

// The layer of any string of bytes.
pub fn layer_of(s: &[u8]) -> u32
    ensures { result ≡ layer_of s.now }
{
    leading_zero_bits(sha256::digest_words(s)) / 2
}
