// The text for a register.
ghost use Rattle.std.specs.Prelude.{◌≡◌, [], ◌∷◌, ◌++◌, ◌^◌, ◌<◌, length, take};
ghost use Rattle.row.specs.Row.{Stands, Row, records_of};
ghost use Rattle.row.specs.Memory.{Remembers};
ghost use Rattle.promises.specs.Listing.{decimal, digits, hex_digit, line_feed, record_lines, listing};
ghost use Rattle.value.specs.Value.{value_length};
ghost use Rattle.listing.specs.Text.{IsPrefixLen, TextStands, Adds, line_end, LineSays};

use bytestring::write_bytes;
use judge::judge;
use limits::MOST;
use row::recall::recall;
use value::{VALUE, value_at};

// One byte, at a place. Where the text ends; none where there is no room for it, as in the functions below.
fn add_byte(out: &mut [u8], at: usize, byte: u8) -> Option<usize>
    ensures { Adds out.old at (byte ∷ []) out.new result }
{
    if out.len() <= at {
        return None;
    }
    out[at] = byte;
    Some(at + 1)
}

// These bytes, at a place.
fn add(out: &mut [u8], at: usize, bytes: &[u8]) -> Option<usize>
    ensures { Adds out.old at bytes.now out.new result }
{
    let room = out.len().checked_sub(at)?;
    if room < bytes.len() {
        return None;
    }
    write_bytes(&mut out[at..], bytes);
    Some(at + bytes.len())
}

// A number in decimal, of at most so many digits.
fn add_digits(out: &mut [u8], at: usize, most: usize, n: usize) -> Option<usize>
    ensures { Adds out.old at (digits most n) out.new result }
{
    if most == 0 {
        return Some(at);
    }
    if n < 10 {
        return add_byte(out, at, 0x30 + n as u8);
    }
    let next = add_digits(out, at, most - 1, n / 10)?;
    add_byte(out, next, 0x30 + (n % 10) as u8)
}

// The first line: a word and a number.
fn add_first_line(out: &mut [u8], word: &[u8], n: usize) -> Option<usize>
    ensures { Adds out.old 0 (word.now ++ (decimal n ++ (line_feed ∷ []))) out.new result }
{
    let first = add(out, 0, word)?;
    let next = add_digits(out, first, 20, n)?;
    add_byte(out, next, 0x0A)
}

fn hex_digit(n: u8) -> u8
    requires { n < 16 }
    ensures { result ≡ hex_digit n }
{
    if n < 10 { 0x30 + n } else { 0x57 + n }
}

// What follows the key in a record's line: a space, the value in 66 digits, and a line feed.
fn line_end(value: &[u8]) -> [u8; 68]
    requires { length value.now ≡ value_length }
    ensures { result ≡ line_end value.now }
{
    let mut text = [0x20u8; 68];
    for i in 0..VALUE {
        let byte = value[i];
        text[2 * i + 1] = hex_digit(byte / 16);
        text[2 * i + 2] = hex_digit(byte % 16);
    }
    text[67] = 0x0A;
    text
}

// The line of the record that a word of the index leads to. The memory goes on from its key, so that each page is passed once.
fn add_line(
    out: &mut [u8],
    at: usize,
    s: &[u8],
    word: u64,
    keys: &mut [u8],
    notes: &mut [u64],
) -> Option<usize>
    requires { (length s.now < 2 ^ 24) × Stands s.now s.now word × Remembers s.now s.now keys.old notes.old × (length notes.old ≡ 64) }
    ensures { LineSays s.now word out.old at out.new keys.new notes.new result }
{
    let found = recall(s, s, word, 0, keys, notes);
    let from = found.from;
    let to = from + found.size;
    let next = add(out, at, &keys[from..to])?;
    let value = value_at(s, found.value);
    add(out, next, &line_end(&value))
}

// The lines of all records.
fn add_lines(out: &mut [u8], at: usize, s: &[u8], index: &[u64], count: usize) -> Option<usize>
    requires { Row s.now s.now index.now count }
    ensures { Adds out.old at (record_lines (records_of s.now s.now index.now count)) out.new result }
{
    let mut keys = [0u8; 16384];
    let mut notes = [0u64; 64];
    let mut next = at;
    for i in 0..count {
        next = add_line(out, next, s, index[i], &mut keys, &mut notes)?;
    }
    Some(next)
}

// The listing of what was read, where there is room for it.
fn write_listing(s: &[u8], out: &mut [u8]) -> Option<usize>
    ensures { TextStands out.new (listing s.now) result }
{
    if 65536 < s.len() {
        return add_first_line(out, b"refused ", 1);
    }
    let mut index = [0u64; MOST];
    let mut chains = [0u64; 2 * MOST];
    match judge(s, &mut index, &mut chains) {
        Ok((count, _)) => {
            let at = add_first_line(out, b"records ", count)?;
            add_lines(out, at, s, &index, count)
        }
        Err(refusal) => add_first_line(out, b"refused ", u64::from(refusal) as usize),
    }
}

// The listing of what was read: so many bytes at the front of the output, which has room for every listing.
pub fn list_input(s: &[u8], out: &mut [u8; 524288]) -> usize
    ensures { IsPrefixLen result out.new × (take result out.new ≡ listing s.now) }
{
    write_listing(s, out).unwrap_or(0)
}
