// The entry of a record: its length and its bytes. Its key is held for the entry after it.
ghost use Rattle.std.specs.Prelude.{◌≡◌, ◌+◌, ◌≤◌, length, take, drop, leb, is_some};
ghost use Rattle.limits.specs.Limits.{longest_key};
ghost use Rattle.bytestring.specs.Bytes.{front};
ghost use Rattle.page.specs.Page.{entry_bytes};
ghost use Rattle.page_writer.specs.Front.{link_held, entry_length, entry_after};
ghost use Rattle.layout.specs.Entry.{Asks, Holding, EntryTried};

use bytestring::write_bytes;
use page_writer::{entry_length, write_entry};
use row::bytes::value_of;
use row::recall::recall;
use value::{Digest, Value};

// An entry takes no more bytes than these: its key has at most 256.
const LONGEST_ENTRY: usize = 353;

// An entry's length, and that of its key, which is held.
#[derive(Clone, Copy)]
pub struct Added {
    pub len: usize,
    pub held: usize,
}

// The key that stands at this place is the one held.
pub fn hold(previous: &mut [u8], keys: &[u8], from: usize, size: usize)
    requires { (from + size ≤ length keys.now) × (size ≤ length previous.old) }
    ensures { previous.new ≡ front (take size (drop from keys.now)) previous.old }
{
    write_bytes(previous, &keys[from..from + size]);
}

// The length of the entry of the key at this place, after the previous key.
pub fn length_after(previous: &[u8], keys: &[u8], from: usize, size: usize, linked: bool) -> usize
    requires { (from + size ≤ length keys.now) × (size ≤ longest_key) }
    ensures { (result ≡ entry_length previous.now (take size (drop from keys.now)) linked) × (result ≤ 400) }
{
    entry_length(previous, &keys[from..from + size], linked)
}

// Whether that entry has room in so many bytes. Its length is computed only where the longest one has none.
fn fits_after(
    previous: &[u8],
    keys: &[u8],
    from: usize,
    size: usize,
    linked: bool,
    room: usize,
) -> bool
    requires { (from + size ≤ length keys.now) × (size ≤ longest_key) }
    ensures { result ≡ leb (entry_length previous.now (take size (drop from keys.now)) linked) room }
{
    LONGEST_ENTRY <= room || length_after(previous, keys, from, size, linked) <= room
}

// That entry, at the front of out.
fn write_after(
    out: &mut [u8],
    previous: &[u8],
    keys: &[u8],
    from: usize,
    size: usize,
    link: Option<Digest>,
    value: Value,
) -> usize
    requires { (from + size ≤ length keys.now) × (size ≤ longest_key) × (entry_length previous.now (take size (drop from keys.now)) (is_some link) ≤ length out.old) }
    ensures output { out.new ≡ front (entry_bytes (entry_after previous.now (take size (drop from keys.now)) (link_held link) value)) out.old }
    ensures count { result ≡ entry_length previous.now (take size (drop from keys.now)) (is_some link) }
{
    write_entry(out, previous, &keys[from..from + size], link, value)
}

// The entry of a word's record at the front of out, after the key held, where it has room; its key is the next one held.
pub fn write_record(
    s: &[u8],
    u: &[u8],
    word: u64,
    keys: &mut [u8],
    notes: &mut [u64],
    previous: &mut [u8],
    held: usize,
    link: Option<Digest>,
    out: &mut [u8],
) -> Option<Added>
    requires { Asks s.now u.now word × Holding s.now u.now keys.old notes.old previous.old held }
    ensures { EntryTried s.now u.now word (take held previous.old) link out.old out.new keys.new notes.new previous.new result }
{
    let found = recall(s, u, word, 64, keys, notes);
    let from = found.from;
    let size = found.size;
    if !fits_after(
        &previous[..held],
        keys,
        from,
        size,
        link.is_some(),
        out.len(),
    ) {
        return None;
    }
    let value = value_of(s, u, word, found.value);
    let len = write_after(out, &previous[..held], keys, from, size, link, value);
    hold(previous, keys, from, size);
    Some(Added { len, held: size })
}
