// The key rule and layers: the calls `slash` and `layer`.
#![tactic(auto)]

mod rule; // the parts of the key rule
pub mod layers; // the layer of a digest and of a string of bytes

ghost use Rattle.std.specs.Prelude.{◌≡◌};
ghost use Rattle.key.specs.Key.{slash_answer};
ghost use Rattle.key.specs.Layer.{layer_answer};

use crate::rule::{is_dot_name, slash_or_end};
use answer::Refusal;
use limits::{LONGEST, LONGEST_KEY};

// Public call: the layer of any string of bytes; number 1 for one that is too long.
pub fn layer(input: &[u8]) -> Result<u32, Refusal>
    ensures { result ≡ layer_answer input.now }
{
    if input.len() <= LONGEST {
        Ok(layers::layer_of(input))
    } else {
        Err(Refusal::TooLong)
    }
}

// Public call: how many bytes stand before the slash of a key; number 7 for a string that breaks the key rule.
pub fn slash(key: &[u8]) -> Result<u32, Refusal>
    ensures { result ≡ slash_answer key.now }
{
    let n = key.len();
    if LONGEST_KEY < n {
        return Err(Refusal::UnlawfulKey);
    }
    let at = slash_or_end(key);
    if at == 0 {
        return Err(Refusal::UnlawfulKey);
    }
    // The bytes from the slash on: none where there is no slash, and more than one where a name follows it.
    let left = n - at;
    if left < 2 {
        return Err(Refusal::UnlawfulKey);
    }
    let from = at + 1;
    if is_dot_name(&key[from..]) {
        return Err(Refusal::UnlawfulKey);
    }
    Ok(at as u32)
}
