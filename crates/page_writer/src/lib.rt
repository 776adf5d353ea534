// Writers at the front of a slice: the bytes behind what they write stay as they were. Most answer how many bytes they wrote. The
// functions are for the crates above and no public calls.
#![tactic(auto)]

ghost use Rattle.std.specs.Prelude.{◌≡◌, ◌++◌, ◌+◌, ◌-◌, ◌≤◌, ◌<◌, length, drop, is_some};
ghost use Rattle.limits.specs.Limits.{numbers, longest_key};
ghost use Rattle.bytestring.specs.Bytes.{front};
ghost use Rattle.page.specs.Number.{number_bytes};
ghost use Rattle.page.specs.Page.{link_bytes, gap_bytes, value_bytes, entry_bytes};
ghost use Rattle.page_writer.specs.Front.{number_length, link_held, gap_length, entry_start_bytes, entry_start_length, entry_end_bytes, entry_end_length, entry_length, entry_after, page_start_bytes, page_end_bytes};

use bytestring::write_bytes;
use page::{
    ARRAY, BEFORE_ENTRIES, BEFORE_GAP, BEFORE_LEFT, BEFORE_REMAINDER, BEFORE_SHARES, BEFORE_VALUE,
    BYTE_STRING, LINK_HEAD, NULL, PLAIN_NUMBER,
};
use value::{Digest, Value};

// How many bytes a number takes.
fn number_length(n: usize) -> usize
    ensures { (result ≡ number_length n) × (result ≤ 3) }
{
    match n {
        0..=23 => 1,
        24..=255 => 2,
        _ => 3,
    }
}

// A number of a kind.
fn write_number(out: &mut [u8], kind: u8, n: usize) -> usize
    requires { (kind ≤ 128) × (n < numbers) × (number_length n ≤ length out.old) }
    ensures output { out.new ≡ front (number_bytes kind n) out.old }
    ensures count { result ≡ number_length n }
{
    match n {
        0..=23 => {
            write_bytes(out, &[kind + n as u8]);
            1
        }
        24..=255 => {
            write_bytes(out, &[kind + 24, n as u8]);
            2
        }
        _ => {
            let [high, low] = (n as u16).to_be_bytes();
            write_bytes(out, &[kind + 25, high, low]);
            3
        }
    }
}

// These bytes, and then a number. This and write_gap_after stay two functions: one that took what follows as a closure would say in its
// contract which part of the output it lends, and both callers would still say what stands there.
fn write_number_after(out: &mut [u8], bytes: &[u8], kind: u8, n: usize) -> usize
    requires { (kind ≤ 128) × (n < numbers) × (length bytes.now + number_length n ≤ length out.old) }
    ensures output { out.new ≡ front (bytes.now ++ number_bytes kind n) out.old }
    ensures count { result ≡ length bytes.now + number_length n }
{
    let at = bytes.len();
    write_bytes(out, bytes);
    at + write_number(&mut out[at..], kind, n)
}

// The link of a page.
fn write_link(out: &mut [u8], digest: Digest)
    requires { 41 ≤ length out.old }
    ensures { out.new ≡ front (link_bytes digest) out.old }
{
    write_bytes(out, &LINK_HEAD);
    write_bytes(&mut out[9..], &digest);
}

// A value: a link with the value's own codec.
fn write_value(out: &mut [u8], value: Value)
    requires { 41 ≤ length out.old }
    ensures { out.new ≡ front (value_bytes value) out.old }
{
    let mut head = LINK_HEAD;
    head[6] = value[0];
    write_bytes(out, &head);
    write_bytes(&mut out[9..], &value[1..]);
}

// How many bytes a gap takes.
fn gap_length(linked: bool) -> usize
    ensures { (result ≡ gap_length linked) × (result ≤ 41) }
{
    if linked { 41 } else { 1 }
}

// A gap: the link of the page in it, or null.
fn write_gap(out: &mut [u8], link: Option<Digest>) -> usize
    requires { gap_length (is_some link) ≤ length out.old }
    ensures output { out.new ≡ front (gap_bytes (link_held link)) out.old }
    ensures count { result ≡ gap_length (is_some link) }
{
    match link {
        Some(digest) => {
            write_link(out, digest);
            41
        }
        None => {
            write_bytes(out, &[NULL]);
            1
        }
    }
}

// These bytes, and then a gap.
fn write_gap_after(out: &mut [u8], bytes: &[u8], link: Option<Digest>) -> usize
    requires { length bytes.now + gap_length (is_some link) ≤ length out.old }
    ensures output { out.new ≡ front (bytes.now ++ gap_bytes (link_held link)) out.old }
    ensures count { result ≡ length bytes.now + gap_length (is_some link) }
{
    let at = bytes.len();
    write_bytes(out, bytes);
    at + write_gap(&mut out[at..], link)
}

// The start of an entry: its key without the bytes that it shares with the key before.
fn write_entry_start(out: &mut [u8], shares: usize, key: &[u8]) -> usize
    requires { (length key.now ≤ longest_key) × (shares ≤ length key.now) × (entry_start_length shares (length key.now - shares) ≤ length out.old) }
    ensures output { out.new ≡ front (entry_start_bytes shares (drop shares key.now)) out.old }
    ensures count { result ≡ entry_start_length shares (length key.now - shares) }
{
    let size = key.len() - shares;
    let at = write_number_after(out, &BEFORE_REMAINDER, BYTE_STRING, size);
    write_bytes(&mut out[at..], &key[shares..]);
    let next = at + size;
    next + write_number_after(&mut out[next..], &BEFORE_SHARES, PLAIN_NUMBER, shares)
}

// The end of an entry: the gap after it, and its value.
fn write_entry_end(out: &mut [u8], link: Option<Digest>, value: Value) -> usize
    requires { entry_end_length (is_some link) ≤ length out.old }
    ensures output { out.new ≡ front (entry_end_bytes (link_held link) value) out.old }
    ensures count { result ≡ entry_end_length (is_some link) }
{
    let at = write_gap_after(out, &BEFORE_GAP, link);
    write_bytes(&mut out[at..], &BEFORE_VALUE);
    let next = at + 2;
    write_value(&mut out[next..], value);
    next + 41
}

// How many bytes the entry of a key after the previous one takes.
pub fn entry_length(previous: &[u8], key: &[u8], linked: bool) -> usize
    requires { length key.now ≤ longest_key }
    ensures { (result ≡ entry_length previous.now key.now linked) × (result ≤ 400) }
{
    let shares = key_order::shared_count(previous, key);
    let size = key.len() - shares;
    3 + number_length(size) + size + 2 + number_length(shares) + 2 + gap_length(linked) + 2 + 41
}

// The entry of a key after the previous one.
pub fn write_entry(
    out: &mut [u8],
    previous: &[u8],
    key: &[u8],
    link: Option<Digest>,
    value: Value,
) -> usize
    requires { (length key.now ≤ longest_key) × (entry_length previous.now key.now (is_some link) ≤ length out.old) }
    ensures output { out.new ≡ front (entry_bytes (entry_after previous.now key.now (link_held link) value)) out.old }
    ensures count { result ≡ entry_length previous.now key.now (is_some link) }
{
    let shares = key_order::shared_count(previous, key);
    let at = write_entry_start(out, shares, key);
    at + write_entry_end(&mut out[at..], link, value)
}

// How many bytes the start of a page takes.
pub fn page_start_length(count: usize) -> usize
    ensures { (result ≡ 3 + number_length count) × (result ≤ 6) }
{
    3 + number_length(count)
}

// The start of a page, which its entries follow.
pub fn write_page_start(out: &mut [u8], count: usize) -> usize
    requires { (count < numbers) × (3 + number_length count ≤ length out.old) }
    ensures output { out.new ≡ front (page_start_bytes count) out.old }
    ensures count { result ≡ 3 + number_length count }
{
    write_number_after(out, &BEFORE_ENTRIES, ARRAY, count)
}

// How many bytes the end of a page takes.
pub fn page_end_length(linked: bool) -> usize
    ensures { (result ≡ 2 + gap_length linked) × (result ≤ 43) }
{
    2 + gap_length(linked)
}

// The end of a page, which follows its entries.
pub fn write_page_end(out: &mut [u8], link: Option<Digest>) -> usize
    requires { 2 + gap_length (is_some link) ≤ length out.old }
    ensures output { out.new ≡ front (page_end_bytes (link_held link)) out.old }
    ensures count { result ≡ 2 + gap_length (is_some link) }
{
    write_gap_after(out, &BEFORE_LEFT, link)
}
