// The form of a sequence of pages, and the places of its pages and of their links. The functions are for the crates above and no public calls.
#![tactic(auto)]

ghost use Rattle.std.specs.Prelude.{◌≡◌, ◌+◌, ◌^◌, ◌≤◌, ◌<◌, length, set};
ghost use Rattle.sequence.specs.Noted.{SequenceSays};
ghost use Rattle.sequence.specs.Inner.{LinkNoted, EntriesNoted};

use page_reader::{Stop, locate_entry, read_page};

// Notes a place as the k-th word, where there is room.
fn note_place(words: &mut [u32], k: usize, at: usize)
    requires { at < 2 ^ 32 }
    ensures { words.new ≡ set words.old k at }
{
    if k < words.len() {
        words[k] = at as u32;
    }
}

// One link more, by the place of its digest; place 0 is no link. The new count.
fn note_link(links: &mut [u32], at: usize, count: usize) -> usize
    requires { (at < 2 ^ 32) × (count < 2 ^ 32) }
    ensures few { result ≤ count + 1 }
    ensures noted { LinkNoted links.old at count links.new result }
{
    if at == 0 {
        return count;
    }
    note_place(links, count, at);
    count + 1
}

// The links after the n entries from first on, which were read before, so that they need only be located. The new count.
fn note_links_after(s: &[u8], first: usize, n: usize, links: &mut [u32], count: usize) -> usize
    requires { (length s.now < 2 ^ 24) × (count + n < 2 ^ 32) }
    ensures few { result ≤ count + n }
    ensures noted { EntriesNoted s.now first n links.old count links.new result }
{
    let mut total = count;
    let mut at = first;
    for i in 0..n {
        let Ok(e) = locate_entry(s, at) else {
            return total;
        };
        total = note_link(links, e.link, total);
        at = e.end;
    }
    total
}

// Page after page until no bytes are left. The places of the pages and of their links' digests are noted as far as there is room.
// How many pages there are, and how many links.
pub fn note_sequence(s: &[u8], links: &mut [u32], pages: &mut [u32]) -> Result<(usize, usize), Stop>
    requires { length s.now < 2 ^ 24 }
    ensures { SequenceSays s.now result links.new pages.new }
{
    let mut number = 0;
    let mut count = 0;
    let mut at = 0;
    // The place goes on by the length of a page.
    while at < s.len() {
        let p = read_page(s, at)?;
        note_place(pages, number, at);
        let before = note_links_after(s, p.first, p.count, links, count);
        count = note_link(links, p.left, before);
        number += 1;
        at = p.end;
    }
    Ok((number, count))
}
