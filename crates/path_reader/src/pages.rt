// The pages of a path, one after the other.
ghost use Rattle.std.specs.Prelude.{◌≡◌, false, ◌≤◌, length, drop};
ghost use Rattle.limits.specs.Limits.{deepest, longest};
ghost use Rattle.bytestring.specs.Bytes.{Bytes};
ghost use Rattle.path.specs.Verify.{judge_pages, verify_answer};
ghost use Rattle.path_reader.specs.Judging.{JudgesPrefixes, said_in_gap, said_by, JudgesPage, end_answer};

use crate::entries::{Search, judge_entries};
use answer::Refusal;
use bytestring::same_bytes;
use limits::{DEEPEST, NUMBERS};
use page_keys::prefixes_fit;
use page_reader::read_page;
use sha256::digest_of;
use value::{Digest, codec_at, digest_at};

// What a page says that is not refused: the key is an entry, whose value's digest stands at a place; it would stand in a gap without a link; it
// would stand in a gap whose link's digest is at a place. The page ends before the place that is given last.
#[derive(Clone, Copy)]
pub enum PageSays {
    Present(usize, usize),
    Absent(usize),
    Linked(usize, usize),
}

// Whether the prefix lengths of the page at a place are right. It is read again, with room for every byte that a prefix can reach.
fn prefixes_again(path: &[u8], at: usize) -> bool
    ensures { JudgesPrefixes path.now at false result }
{
    let mut buffer = [0u8; NUMBERS];
    let Ok(p) = read_page(path, at) else {
        return true;
    };
    prefixes_fit(path, p.first, p.count, &mut buffer)
}

// The same after the pass over its entries, which may have failed to tell, where a key is longer than any lawful one. A function that is called
// in two places has a frame of its own: the buffer of 65,536 bytes is not on the stack while entries are judged.
fn page_prefixes_fit(path: &[u8], at: usize, told: bool) -> bool
    ensures { JudgesPrefixes path.now at told result }
{
    if told {
        return true;
    }
    prefixes_again(path, at)
}

// The search has come to a gap.
fn in_gap(link: usize, end: usize) -> PageSays
    ensures { result ≡ said_in_gap link end }
{
    if link == 0 {
        return PageSays::Absent(end);
    }
    PageSays::Linked(link, end)
}

// What a page says whose tests hold.
fn said_by(search: Search, end: usize) -> PageSays
    ensures { result ≡ said_by search end }
{
    match search {
        Search::On(link) => in_gap(link, end),
        Search::Value(value) => PageSays::Present(value, end),
        Search::Gap(link) => in_gap(link, end),
    }
}

// One page of the path, at a place: the tests of its keys, its digest, and the search in it.
fn judge_page(path: &[u8], at: usize, key: &[u8], due: &Digest) -> Result<PageSays, Refusal>
    requires { Bytes path.now }
    ensures { JudgesPage path.now at key.now due.now result }
{
    let p = read_page(path, at)?;
    let end = p.end;
    let judged = judge_entries(path, p.first, p.count, p.left, key);
    if !judged.lawful {
        if !page_prefixes_fit(path, at, judged.prefixes) {
            return Err(Refusal::WrongPrefix);
        }
        return Err(Refusal::UnlawfulKey);
    }
    if !page_prefixes_fit(path, at, judged.prefixes) {
        return Err(Refusal::WrongPrefix);
    }
    if !judged.rising {
        return Err(Refusal::KeysNotRising);
    }
    let digest = digest_of(&path[at..end]);
    if !same_bytes(&digest, due) {
        return Err(Refusal::PageNotDue);
    }
    Ok(said_by(judged.search, end))
}

// The search has ended in the page that ends before the place end, with these two values: bytes left draw 4.
fn at_end(path: &[u8], end: usize, place: usize, codec: u8) -> Result<(u32, u32), Refusal>
    requires { place ≤ longest }
    ensures { result ≡ end_answer place codec (drop end path.now) }
{
    if end < path.len() {
        return Err(Refusal::BytesFollow);
    }
    Ok((place as u32, codec as u32))
}

// The pages, as long as the search goes on.
pub fn judge_pages(path: &[u8], key: &[u8], root: Digest) -> Result<(u32, u32), Refusal>
    requires { length path.now ≤ longest }
    ensures { result ≡ verify_answer path.now (judge_pages deepest key.now root 0 path.now) }
{
    let mut due = root;
    let mut at = 0;
    for level in 0..DEEPEST {
        match judge_page(path, at, key, &due)? {
            PageSays::Present(value, end) => {
                return at_end(path, end, value, codec_at(path, value));
            }
            PageSays::Absent(end) => {
                return at_end(path, end, 0, 0);
            }
            PageSays::Linked(link, end) => {
                due = digest_at(path, link);
                at = end;
            }
        }
    }
    if at < path.len() {
        return Err(Refusal::Departs);
    }
    Err(Refusal::EndsEarly)
}
