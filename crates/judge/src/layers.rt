// The layers of a register's keys: one pass over the row of its records.
ghost use Rattle.judge.specs.Layers.{Depths, LayersSay};

use key_calls::layers::layer_of;
use row::recall::recall;
use word::{layer_in, with_layer};

// Whether each key stands as deep below the root as its layer is below the root's. The layers go into the words.
pub fn note_layers(s: &[u8], index: &mut [u64], n: usize) -> bool
    requires { Depths s.now index.old n }
    ensures { LayersSay s.now index.old n result index.new }
{
    let mut keys = [0u8; 16384];
    let mut notes = [0u64; 64];
    let mut first = None;
    for i in 0..n {
        let word = index[i];
        let found = recall(s, s, word, 0, &mut keys, &mut notes);
        let from = found.from;
        let to = from + found.size;
        let layer = layer_of(&keys[from..to]);
        let sum = layer as usize + layer_in(word);
        // What the first record's layer and depth make together is asked of all.
        let top = first.unwrap_or(sum);
        if sum != top {
            return false;
        }
        first = Some(top);
        index[i] = with_layer(word, layer);
    }
    true
}
