// Positions of two rows, each with its record's key at hand.
ghost use Rattle.std.specs.Prelude.{◌≡◌, cond, ◌+◌, ◌≤◌, ◌<◌, length};
ghost use Rattle.key.specs.Key.{order};
ghost use Rattle.row.specs.Row.{Row};
ghost use Rattle.row.specs.Memory.{Remembers};
ghost use Rattle.choice.specs.Choice.{Held, held_key};

use key_order::compare;
use row::recall::recall;
use std::cmp::Ordering;

// A position of a row; where its record's key stands in the memory, the key's length, and the place of the value in its register.
#[derive(Clone, Copy)]
pub struct Cursor {
    pub at: usize,
    pub from: usize,
    pub size: usize,
    pub value: usize,
}

// The cursor at a position of a row. Past the row's end no record is recalled.
pub fn cursor_at(
    s: &[u8],
    u: &[u8],
    row: &[u64],
    n: usize,
    at: usize,
    keys: &mut [u8],
    notes: &mut [u64],
) -> Cursor
    requires { Row s.now u.now row.now n × Remembers s.now u.now keys.old notes.old × (length notes.old ≡ 64) }
    ensures { (result.at ≡ at) × Held s.now u.now row.now n keys.new notes.new result }
{
    if n <= at {
        return Cursor {
            at,
            from: 0,
            size: 0,
            value: 0,
        };
    }
    let found = recall(s, u, row[at], 0, keys, notes);
    Cursor {
        at,
        from: found.from,
        size: found.size,
        value: found.value,
    }
}

// The cursor goes on by one position, or stays.
pub fn advance(
    s: &[u8],
    u: &[u8],
    row: &[u64],
    n: usize,
    cursor: Cursor,
    moves: bool,
    keys: &mut [u8],
    notes: &mut [u64],
) -> Cursor
    requires { Row s.now u.now row.now n × Held s.now u.now row.now n keys.old notes.old cursor × (length notes.old ≡ 64) × (cursor.at < n) }
    ensures { (result.at ≡ cond moves (cursor.at + 1) cursor.at) × Held s.now u.now row.now n keys.new notes.new result }
{
    if moves {
        return cursor_at(s, u, row, n, cursor.at + 1, keys, notes);
    }
    cursor
}

// The order of the keys at two cursors.
pub fn order_of(keys: &[u8], a: Cursor, others: &[u8], b: Cursor) -> Ordering
    requires { (a.from + a.size ≤ length keys.now) × (b.from + b.size ≤ length others.now) }
    ensures { result ≡ order (held_key keys.now a) (held_key others.now b) }
{
    let from = a.from;
    let to = from + a.size;
    let start = b.from;
    let end = start + b.size;
    compare(&keys[from..to], &others[start..end])
}
