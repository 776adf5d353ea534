// A record of a row, from where its page was left.
ghost use Rattle.std.specs.Prelude.{◌+◌, ◌≤◌, ◌<◌, ◌^◌, length};
ghost use Rattle.row.specs.Row.{AtPlaces};
ghost use Rattle.row.specs.Memory.{NoteFor, Remembers, Recalls};

use crate::fetch::fetch_of;
use limits::LONGEST_KEY;
use word::{layer_in, note_word, register_in};

// Where a key stands in the memory, its length, and the place of its value in its register.
#[derive(Clone, Copy)]
pub struct Recalled {
    pub from: usize,
    pub size: usize,
    pub value: usize,
}

// Of each register a key for each layer, so that a page goes on where it was left. Layers that differ by 32 share one: pages of both would
// have to stand in turn, and no key of a layer from 32 on will be found.
fn slot_of(word: u64) -> usize
    ensures { result < 64 }
{
    register_in(word) % 2 * 32 + layer_in(word) % 32
}

// A note on a key of the register that the word belongs to; on another register's it is none.
fn note_for(word: u64, note: u64) -> u64
    ensures { NoteFor word note result }
{
    if register_in(note) == register_in(word) {
        return note;
    }
    0
}

// The record of a word of a row. The slots from base on are used: a pass over a row has its own.
pub fn recall(
    s: &[u8],
    u: &[u8],
    word: u64,
    base: usize,
    keys: &mut [u8],
    notes: &mut [u64],
) -> Recalled
    requires { (length s.now < 2 ^ 24) × (length u.now < 2 ^ 24) × AtPlaces s.now u.now word × Remembers s.now u.now keys.old notes.old × (base + 64 ≤ length notes.old) × (length notes.old ≤ 256) }
    ensures { Recalls s.now u.now word keys.new notes.new result }
{
    let slot = base + slot_of(word);
    let from = LONGEST_KEY * slot;
    let to = from + LONGEST_KEY;
    let note = note_for(word, notes[slot]);
    let found = fetch_of(s, u, word, &mut keys[from..to], note);
    let size = found.size;
    let value = found.value;
    notes[slot] = note_word(word, found.next, size);
    Recalled { from, size, value }
}
