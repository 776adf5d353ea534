// The pages that are kept of filed pages, merged in order of digest with those of a register to be saved. The functions are for the crates
// above and no public calls.
#![tactic(auto)]

ghost use Rattle.std.specs.Prelude.{◌≡◌, true, false, IfSome, List, [], ◌++◌, ℕ, ◌+◌, ◌^◌, ◌≤◌, ◌<◌, length};
ghost use Rattle.limits.specs.Limits.{longest};
ghost use Rattle.key.specs.Key.{less};
ghost use Rattle.page.specs.Page.{RawPage};
ghost use Rattle.links.specs.Links.{from_first, digest_named, Names};
ghost use Rattle.filing.specs.Filed.{bytes_at, link_named};
ghost use Rattle.staging.specs.Pages.{page_named, PageWord, PageWords};
ghost use Rattle.keeping.specs.Kept.{LabelledPages, kept_from, ToKeep, SequenceWritten};
ghost use Rattle.keeping.specs.Inner.{string_of, part_of, InString, PartStands, PastPage, PageBegins, PutBehind, RepeatSays, AddSays, NextIs, InRows, progress_after, PassedOver, StepSays};

use bytestring::{same_bytes, write_bytes};
use key_order::compare;
use known::label_place;
use links::{FROM_CHAINS, FROM_FIRST};
use page_reader::read_page;
use staging::{page_end, page_start};
use value::{Digest, digest_at};

// Why no sequence is kept: the output is too short for it, or two unequal pages share a digest.
#[derive(Clone, Copy)]
pub enum Unkept {
    Short,
    Shared,
}

// A page: whether it stands in the register to be saved, from which place to before which, and its digest.
#[derive(Clone, Copy)]
struct PagePart {
    saved: bool,
    from: usize,
    to: usize,
    digest: Digest,
}

// How far the two rows are written: the numbers of the next in each, where the i-th filed page begins, the length of the sequence so far, and
// the last page, if there is one.
#[derive(Clone, Copy)]
struct Progress {
    i: usize,
    j: usize,
    place: usize,
    length: usize,
    last: Option<PagePart>,
}

// The digest that the label of a filed page names.
fn label_digest(states: &[u8], sequence: &[u8], label: u32) -> Digest
    requires { Names states.now sequence.now [] label }
    ensures { result ≡ link_named states.now sequence.now label }
{
    if label < FROM_FIRST {
        return digest_at(sequence, label as usize);
    }
    digest_at(states, (label - FROM_FIRST) as usize)
}

// The digest that the word of a page of the register names.
fn word_digest(root: &[u8], register: &[u8], chains: &[u64], word: u32) -> Digest
    requires { Names root.now register.now chains.now word × (from_first ≤ word) }
    ensures { result ≡ digest_named root.now register.now chains.now word }
{
    if word < FROM_CHAINS {
        return digest_at(root, (word - FROM_FIRST) as usize);
    }
    let number = (word - FROM_CHAINS) as usize;
    digest_at(
        register,
        label_place(chains[2 * (number / 256)], number % 256),
    )
}

// Whether the digest of a word is less than that of a label.
fn word_leads(
    states: &[u8],
    sequence: &[u8],
    label: u32,
    root: &[u8],
    register: &[u8],
    chains: &[u64],
    word: u32,
) -> bool
    requires { Names states.now sequence.now [] label × Names root.now register.now chains.now word × (from_first ≤ word) }
    ensures { result ≡ less (digest_named root.now register.now chains.now word) (link_named states.now sequence.now label) }
{
    let digest = word_digest(root, register, chains, word);
    let other = label_digest(states, sequence, label);
    compare(&digest, &other).is_lt()
}

// Where the page at a place ends.
fn past_page(sequence: &[u8], from: usize) -> usize
    ensures { PastPage sequence.now from result }
{
    let Ok(page) = read_page(sequence, from) else {
        return from;
    };
    page.end
}

// The i-th filed page, which begins at a place.
fn filed_part(
    states: &[u8],
    sequence: &[u8],
    labels: &[u32],
    n: usize,
    i: usize,
    from: usize,
) -> PagePart
    requires { ((raws : List RawPage) × LabelledPages states.now sequence.now labels.now n raws) × (i < n) × PageBegins sequence.now i from }
    ensures { (result.saved ≡ false) × PageBegins sequence.now (i + 1) result.to × ((raws : List RawPage) → LabelledPages states.now sequence.now labels.now n raws → PartStands sequence.now result (bytes_at raws i)) }
{
    PagePart {
        saved: false,
        from,
        to: past_page(sequence, from),
        digest: label_digest(states, sequence, labels[i]),
    }
}

// The page of a word of the register.
fn saved_part(root: &[u8], register: &[u8], root_end: usize, chains: &[u64], word: u32) -> PagePart
    requires { PageWord root.now register.now root_end chains.now word × (length register.now ≤ longest) }
    ensures { (result.saved ≡ true) × PartStands register.now result (page_named register.now root_end chains.now word) }
{
    PagePart {
        saved: true,
        from: page_start(chains, word),
        to: page_end(root_end, chains, word),
        digest: word_digest(root, register, chains, word),
    }
}

// Of the i-th filed page, which begins at a place, and the page of the j-th word the one with the lesser digest.
fn next_part(
    states: &[u8],
    sequence: &[u8],
    labels: &[u32],
    n: usize,
    root: &[u8],
    register: &[u8],
    root_end: usize,
    chains: &[u64],
    words: &[u32],
    m: usize,
    i: usize,
    j: usize,
    place: usize,
) -> PagePart
    requires { ((marks : List ℕ) × ToKeep states.now sequence.now labels.now marks n root.now register.now root_end chains.now words.now m) × (i ≤ n) × (j ≤ m) × (i + j < n + m) × PageBegins sequence.now i place }
    ensures { (raws : List RawPage) → LabelledPages states.now sequence.now labels.now n raws → NextIs raws n sequence.now register.now root_end chains.now words.now m i j result result.saved }
{
    if m <= j {
        return filed_part(states, sequence, labels, n, i, place);
    }
    let word = words[j];
    if n <= i {
        return saved_part(root, register, root_end, chains, word);
    }
    if word_leads(states, sequence, labels[i], root, register, chains, word) {
        return saved_part(root, register, root_end, chains, word);
    }
    filed_part(states, sequence, labels, n, i, place)
}

// Bytes behind the first bytes of the output, where they fit. Their end in any case.
fn put_bytes(bytes: &[u8], out: &mut [u8], at: usize) -> usize
    requires { (length bytes.now ≤ 2 ^ 62) × (at ≤ 2 ^ 62) }
    ensures { PutBehind bytes.now out.old at out.new result }
{
    let end = at + bytes.len();
    if out.len() < end {
        return end;
    }
    write_bytes(&mut out[at..], bytes);
    end
}

// The bytes of a page.
fn bytes_of_part<'a>(sequence: &'a [u8], register: &'a [u8], part: PagePart) -> &'a [u8]
    requires { InString (string_of sequence.now register.now part) part }
    ensures { result.now ≡ part_of (string_of sequence.now register.now part) part }
{
    let from = part.from;
    let to = part.to;
    if part.saved {
        return &register[from..to];
    }
    &sequence[from..to]
}

// The last page, if there is one and its digest is that of another page.
fn repeated(last: Option<PagePart>, part: PagePart) -> Option<PagePart>
    ensures { RepeatSays last part result }
{
    let other = last?;
    if part.digest == other.digest {
        return Some(other);
    }
    None
}

// A page behind those written so far, whose length is given. Where the last of them has the same digest, it must be the same page, and is not
// written again.
fn add_part(
    sequence: &[u8],
    register: &[u8],
    last: Option<PagePart>,
    part: PagePart,
    out: &mut [u8],
    at: usize,
) -> Option<usize>
    requires in_string { InString (string_of sequence.now register.now part) part × (at ≤ 2 ^ 62) }
    requires last_in_string { IfSome last (λ l. InString (string_of sequence.now register.now l) l) }
    ensures { AddSays sequence.now register.now last part out.old at result out.new }
{
    let bytes = bytes_of_part(sequence, register, part);
    let Some(other) = repeated(last, part) else {
        return Some(put_bytes(bytes, out, at));
    };
    if same_bytes(bytes, bytes_of_part(sequence, register, other)) {
        return Some(at);
    }
    None
}

// After a page the rows go on behind it.
fn go_on(i: usize, j: usize, place: usize, part: PagePart, length: usize) -> Progress
    requires { (i ≤ 2 ^ 24) × (j ≤ 2 ^ 24) }
    ensures { result ≡ progress_after i j place part length part.saved }
{
    let last = Some(part);
    if part.saved {
        return Progress {
            i,
            j: j + 1,
            place,
            length,
            last,
        };
    }
    Progress {
        i: i + 1,
        j,
        place: part.to,
        length,
        last,
    }
}

// Whether the i-th filed page is not kept.
fn is_passed_over(marks: &[u8], n: usize, i: usize) -> bool
    requires { n ≤ length marks.now }
    ensures { PassedOver marks.now n i result }
{
    i < n && marks[i] != 1
}

// One page of the rows: a filed page that is not kept is passed over, and the next page is written. None where two unequal pages share a
// digest.
fn step(
    states: &[u8],
    sequence: &[u8],
    labels: &[u32],
    marks: &[u8],
    n: usize,
    root: &[u8],
    register: &[u8],
    root_end: usize,
    chains: &[u64],
    words: &[u32],
    m: usize,
    progress: Progress,
    out: &mut [u8],
) -> Option<Progress>
    requires to_keep { ToKeep states.now sequence.now labels.now marks.now n root.now register.now root_end chains.now words.now m × InRows sequence.now n m progress × (progress.i + progress.j < n + m) }
    requires last_in_string { IfSome progress.last (λ l. InString (string_of sequence.now register.now l) l) }
    ensures { StepSays states.now sequence.now labels.now marks.now n register.now root_end chains.now words.now m progress out.old result out.new }
{
    let i = progress.i;
    let j = progress.j;
    let place = progress.place;
    let last = progress.last;
    let length = progress.length;
    if is_passed_over(marks, n, i) {
        return Some(Progress {
            i: i + 1,
            j,
            place: past_page(sequence, place),
            length,
            last,
        });
    }
    let part = next_part(
        states, sequence, labels, n, root, register, root_end, chains, words, m, i, j, place,
    );
    let end = add_part(sequence, register, last, part, out, length)?;
    Some(go_on(i, j, place, part, end))
}

// The sequence of the kept pages and of the register's pages, at the front of the output. Each page is written where it fits, and counted in
// any case: two unequal pages that share a digest are found past the room too.
pub fn write_kept(
    states: &[u8],
    sequence: &[u8],
    labels: &[u32],
    marks: &[u8],
    n: usize,
    root: &[u8],
    register: &[u8],
    root_end: usize,
    chains: &[u64],
    words: &[u32],
    m: usize,
    out: &mut [u8],
) -> Result<usize, Unkept>
    requires { ToKeep states.now sequence.now labels.now marks.now n root.now register.now root_end chains.now words.now m }
    ensures { (raws : List RawPage) (qs : List (List ℕ)) → LabelledPages states.now sequence.now labels.now n raws → PageWords root.now register.now root_end chains.now words.now m qs → SequenceWritten (kept_from marks.now 0 raws ++ qs) out.old result out.new }
{
    let total = n + m;
    let mut progress = Progress {
        i: 0,
        j: 0,
        place: 0,
        length: 0,
        last: None,
    };
    for turn in 0..total {
        let Some(next) = step(
            states, sequence, labels, marks, n, root, register, root_end, chains, words, m,
            progress, out,
        ) else {
            return Err(Unkept::Shared);
        };
        progress = next;
    }
    if out.len() < progress.length {
        return Err(Unkept::Short);
    }
    Ok(progress.length)
}
