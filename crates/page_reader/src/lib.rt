// Readers at a place of a slice. At a place past the end the input ends early. The functions are for the crates above and no public
// calls.
#![tactic(auto)]

ghost use Rattle.std.specs.Prelude.{◌≡◌, ◌||◌, ◌+◌, ◌-◌, ◌≤◌, ◌<◌, length, drop};
ghost use Rattle.bytestring.specs.Bytes.{equal};
ghost use Rattle.value.specs.Value.{digest_length, digest_in, raw, dag_cbor, value_in};
ghost use Rattle.page.specs.Reading.{exactly, any_bytes};
ghost use Rattle.page.specs.Number.{one_byte, two_bytes, number};
ghost use Rattle.page.specs.Page.{link, gap, value};
ghost use Rattle.page_reader.specs.Place.{read_stop, refusal_of, after, ExactIs, NumberIs, LinkIs, value_end, GapIs, empty_gap_to_value, EntryEndIs, EntryIs, LocatedEndIs, LocatedIs, page_start, EntriesIs, PageIs};

use answer::Refusal;
use bytestring::same_bytes;
use page::{
    AFTER_CODEC, ARRAY, BEFORE_CODEC, BEFORE_ENTRIES, BEFORE_GAP, BEFORE_LEFT, BEFORE_REMAINDER,
    BEFORE_SHARES, BEFORE_VALUE, BYTE_STRING, LINK_HEAD, NULL, PLAIN_NUMBER,
};
use value::{DIGEST, is_codec};

// How far behind an entry's numbers its parts stand. The digest of a link in the gap: after the two bytes before a gap, and the nine that
// begin a link.
const TO_DIGEST: usize = 11;

// The digest of the value after a link: after the link's 32 digest bytes, the two before a value, and the nine.
const TO_VALUE_AFTER_LINK: usize = 54;

// The digest of the value after an empty gap: after the two bytes, the null, the two, and the nine.
const TO_VALUE_AFTER_NULL: usize = 14;

// Most entries have an empty gap after them. What stands before the digest of the value is then the same in all whose values have one
// codec and is compared at once. Most values are record blocks.
const EMPTY_GAP_TO_DAG_CBOR: [u8; 14] = [
    0x61, 0x74, 0xF6, 0x61, 0x76, 0xD8, 0x2A, 0x58, 0x25, 0x00, 0x01, 0x71, 0x12, 0x20,
];

const EMPTY_GAP_TO_RAW: [u8; 14] = [
    0x61, 0x74, 0xF6, 0x61, 0x76, 0xD8, 0x2A, 0x58, 0x25, 0x00, 0x01, 0x55, 0x12, 0x20,
];

// Why reading stopped: the input ends while a byte is due, or a byte departs from the form.
#[derive(Clone, Copy)]
pub enum Stop {
    EndsEarly,
    Departs,
}

// The refusal of a page that cannot be read.
impl From<Stop> for Refusal {
    ghost from_gives = { λ stop refusal. refusal ≡ refusal_of stop };

    fn from(stop: Stop) -> Refusal {
        match stop {
            Stop::EndsEarly => Refusal::EndsEarly,
            Stop::Departs => Refusal::Departs,
        }
    }
}

// Where the parts of an entry stand: its key's remainder, which has size bytes; the digest of the link of the gap after it, or 0;
// the digest of its value. The entry ends before the place end.
#[derive(Clone, Copy)]
pub struct EntryAt {
    pub shares: usize,
    pub remainder: usize,
    pub size: usize,
    pub link: usize,
    pub value: usize,
    pub end: usize,
}

// Where the parts of a page stand: its count entries, from first to before past; the digest of its left link, or 0. The page ends
// before the place end.
#[derive(Clone, Copy)]
pub struct PageAt {
    pub count: usize,
    pub first: usize,
    pub past: usize,
    pub left: usize,
    pub end: usize,
}

// Why these bytes cannot be read where fewer are left.
fn stop_before_end(s: &[u8], at: usize, bytes: &[u8]) -> Stop
    requires { length s.now - at < length bytes.now }
    ensures { exactly bytes.now (drop at s.now) ≡ read_stop result }
{
    if s.len() <= at {
        return Stop::EndsEarly;
    }
    let left = s.len() - at;
    if same_bytes(&s[at..], &bytes[..left]) {
        return Stop::EndsEarly;
    }
    Stop::Departs
}

// These bytes: the place after them. No bytes are read at any place, past the end too.
fn read_exactly(s: &[u8], at: usize, bytes: &[u8]) -> Result<usize, Stop>
    ensures { ExactIs bytes.now s.now at result }
{
    if bytes.len() == 0 {
        return Ok(at);
    }
    if s.len().saturating_sub(at) < bytes.len() {
        return Err(stop_before_end(s, at, bytes));
    }
    let to = at + bytes.len();
    if same_bytes(&s[at..to], bytes) {
        return Ok(to);
    }
    Err(Stop::Departs)
}

// The one byte of a number from 24 to 255.
fn read_one_byte(s: &[u8], at: usize) -> Result<(usize, usize), Stop>
    ensures { NumberIs one_byte s.now at result }
{
    if s.len() <= at {
        return Err(Stop::EndsEarly);
    }
    let n = usize::from(s[at]);
    if 24 <= n {
        return Ok((n, at + 1));
    }
    Err(Stop::Departs)
}

// The two bytes of a number from 256 on.
fn read_two_bytes(s: &[u8], at: usize) -> Result<(usize, usize), Stop>
    ensures { NumberIs two_bytes s.now at result }
{
    if s.len() <= at {
        return Err(Stop::EndsEarly);
    }
    let high = usize::from(s[at]);
    if high == 0 {
        return Err(Stop::Departs);
    }
    if s.len() <= at + 1 {
        return Err(Stop::EndsEarly);
    }
    let low = usize::from(s[at + 1]);
    Ok((high * 256 + low, at + 2))
}

// A number of a kind.
fn read_number(s: &[u8], at: usize, kind: u8) -> Result<(usize, usize), Stop>
    ensures { NumberIs (number kind) s.now at result }
{
    if s.len() <= at {
        return Err(Stop::EndsEarly);
    }
    let first = usize::from(s[at]);
    let least = usize::from(kind);
    if first < least {
        return Err(Stop::Departs);
    }
    match first - least {
        n @ 0..=23 => Ok((n, at + 1)),
        24 => read_one_byte(s, at + 1),
        25 => read_two_bytes(s, at + 1),
        _ => Err(Stop::Departs),
    }
}

// These bytes, and then a number. The four readers of this kind stay apart: each is two lines, and one that took the reader of what follows
// as a closure would be longer, with a contract that says what the closure answers.
fn read_number_after(s: &[u8], at: usize, bytes: &[u8], kind: u8) -> Result<(usize, usize), Stop>
    ensures { NumberIs (after bytes.now (number kind)) s.now at result }
{
    let to = read_exactly(s, at, bytes)?;
    read_number(s, to, kind)
}

// These bytes, and then a digest: the place of the digest.
fn read_digest_after(s: &[u8], at: usize, bytes: &[u8]) -> Result<usize, Stop>
    ensures { LinkIs digest_in (after bytes.now (any_bytes digest_length)) (length bytes.now) s.now at result }
{
    let to = read_exactly(s, at, bytes)?;
    if s.len().saturating_sub(to) < DIGEST {
        return Err(Stop::EndsEarly);
    }
    Ok(to)
}

// A link: the place of its digest.
fn read_link(s: &[u8], at: usize) -> Result<usize, Stop>
    ensures { LinkIs digest_in link 9 s.now at result }
{
    read_digest_after(s, at, &LINK_HEAD)
}

// A value from its codec on: the place of its digest.
fn read_value_end(s: &[u8], at: usize) -> Result<usize, Stop>
    ensures { LinkIs value_in value_end 3 s.now at result }
{
    if s.len() <= at {
        return Err(Stop::EndsEarly);
    }
    if is_codec(s[at]) {
        return read_digest_after(s, at + 1, &AFTER_CODEC);
    }
    Err(Stop::Departs)
}

// A value: the place of its digest.
fn read_value(s: &[u8], at: usize) -> Result<usize, Stop>
    ensures { LinkIs value_in value 9 s.now at result }
{
    let to = read_exactly(s, at, &BEFORE_CODEC)?;
    read_value_end(s, to)
}

// These bytes, and then a value: the place of its digest.
fn read_value_after(s: &[u8], at: usize, bytes: &[u8]) -> Result<usize, Stop>
    ensures { LinkIs value_in (after bytes.now value) (length bytes.now + 9) s.now at result }
{
    let to = read_exactly(s, at, bytes)?;
    read_value(s, to)
}

// A gap.
fn read_gap(s: &[u8], at: usize) -> Result<(usize, usize), Stop>
    ensures { GapIs gap s.now at result }
{
    if s.len() <= at {
        return Err(Stop::EndsEarly);
    }
    if s[at] == NULL {
        return Ok((0, at + 1));
    }
    let digest = read_link(s, at)?;
    Ok((digest, digest + DIGEST))
}

// These bytes, and then a gap.
fn read_gap_after(s: &[u8], at: usize, bytes: &[u8]) -> Result<(usize, usize), Stop>
    ensures { GapIs (after bytes.now gap) s.now at result }
{
    let to = read_exactly(s, at, bytes)?;
    read_gap(s, to)
}

// The end of an entry whose key was read, one part after the other: the gap after it, and its value.
fn read_gap_and_value(
    s: &[u8],
    at: usize,
    shares: usize,
    remainder: usize,
    size: usize,
) -> Result<EntryAt, Stop>
    ensures { EntryEndIs s.now at shares remainder size result }
{
    let (link, to) = read_gap_after(s, at, &BEFORE_GAP)?;
    let value = read_value_after(s, to, &BEFORE_VALUE)?;
    Ok(EntryAt {
        shares,
        remainder,
        size,
        link,
        value,
        end: value + DIGEST,
    })
}

// Whether these bytes are what stands before the digest of a value after an empty gap.
fn empty_gap_before_value(bytes: &[u8]) -> bool
    ensures { result ≡ (equal bytes.now (empty_gap_to_value dag_cbor) || equal bytes.now (empty_gap_to_value raw)) }
{
    same_bytes(bytes, &EMPTY_GAP_TO_DAG_CBOR) || same_bytes(bytes, &EMPTY_GAP_TO_RAW)
}

// The end of an entry whose key was read.
fn read_entry_end(
    s: &[u8],
    at: usize,
    shares: usize,
    remainder: usize,
    size: usize,
) -> Result<EntryAt, Stop>
    ensures { EntryEndIs s.now at shares remainder size result }
{
    if TO_VALUE_AFTER_NULL + DIGEST <= s.len().saturating_sub(at) {
        let value = at + TO_VALUE_AFTER_NULL;
        if empty_gap_before_value(&s[at..value]) {
            return Ok(EntryAt {
                shares,
                remainder,
                size,
                link: 0,
                value,
                end: value + DIGEST,
            });
        }
    }
    read_gap_and_value(s, at, shares, remainder, size)
}

// An entry.
pub fn read_entry(s: &[u8], at: usize) -> Result<EntryAt, Stop>
    ensures { EntryIs s.now at result }
{
    let (size, remainder) = read_number_after(s, at, &BEFORE_REMAINDER, BYTE_STRING)?;
    if s.len().saturating_sub(remainder) < size {
        return Err(Stop::EndsEarly);
    }
    let (shares, to) = read_number_after(s, remainder + size, &BEFORE_SHARES, PLAIN_NUMBER)?;
    read_entry_end(s, to, shares, remainder, size)
}

// The end of an entry that was read before, from the place after its numbers on.
fn locate_entry_end(
    s: &[u8],
    at: usize,
    shares: usize,
    remainder: usize,
    size: usize,
) -> Result<EntryAt, Stop>
    requires { at ≤ length s.now }
    ensures { LocatedEndIs s.now at shares remainder size result }
{
    let left = s.len() - at;
    if left < 3 {
        return Err(Stop::EndsEarly);
    }
    if s[at + 2] == NULL {
        if left < TO_VALUE_AFTER_NULL + DIGEST {
            return Err(Stop::EndsEarly);
        }
        let value = at + TO_VALUE_AFTER_NULL;
        return Ok(EntryAt {
            shares,
            remainder,
            size,
            link: 0,
            value,
            end: value + DIGEST,
        });
    }
    if left < TO_VALUE_AFTER_LINK + DIGEST {
        return Err(Stop::EndsEarly);
    }
    let value = at + TO_VALUE_AFTER_LINK;
    Ok(EntryAt {
        shares,
        remainder,
        size,
        link: at + TO_DIGEST,
        value,
        end: value + DIGEST,
    })
}

// Where the parts of an entry stand that was read before: what is the same in all entries is passed over and not compared again.
pub fn locate_entry(s: &[u8], at: usize) -> Result<EntryAt, Stop>
    ensures { LocatedIs s.now at result }
{
    if s.len().saturating_sub(at) < 3 {
        return Err(Stop::EndsEarly);
    }
    let (size, remainder) = read_number(s, at + 3, BYTE_STRING)?;
    if s.len() - remainder < size + 2 {
        return Err(Stop::EndsEarly);
    }
    let (shares, to) = read_number(s, remainder + size + 2, PLAIN_NUMBER)?;
    locate_entry_end(s, to, shares, remainder, size)
}

// The start of a page: how many entries it has, and the place of the first.
pub fn read_page_start(s: &[u8], at: usize) -> Result<(usize, usize), Stop>
    ensures { NumberIs page_start s.now at result }
{
    read_number_after(s, at, &BEFORE_ENTRIES, ARRAY)
}

// So many entries: the place after them.
fn read_entries(s: &[u8], at: usize, count: usize) -> Result<usize, Stop>
    requires { at ≤ length s.now }
    ensures { EntriesIs count s.now at result }
{
    let mut next = at;
    for i in 0..count {
        next = read_entry(s, next)?.end;
    }
    Ok(next)
}

// A page, without the pages below it.
pub fn read_page(s: &[u8], at: usize) -> Result<PageAt, Stop>
    ensures { PageIs s.now at result }
{
    let (count, first) = read_page_start(s, at)?;
    let past = read_entries(s, first, count)?;
    let (left, end) = read_gap_after(s, past, &BEFORE_LEFT)?;
    Ok(PageAt {
        count,
        first,
        past,
        left,
        end,
    })
}
