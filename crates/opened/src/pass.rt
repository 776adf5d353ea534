// The passes over the second register's chains: they mark the known pages, count the opened ones and stage the words of their records.
ghost use Rattle.std.specs.Prelude.{◌≡◌, cond, List, ℕ, ◌+◌, ◌*◌, ◌^◌, ◌≤◌, ◌<◌, length, get_or};
ghost use Rattle.limits.specs.Limits.{deepest, longest};
ghost use Rattle.value.specs.Value.{digest_length};
ghost use Rattle.tree.specs.Table.{SpeltTree};
ghost use Rattle.tree.specs.Judge.{accepted, judge};
ghost use Rattle.word.specs.Word.{below_in};
ghost use Rattle.index.specs.Chain.{Chain};
ghost use Rattle.index.specs.Accepted.{AcceptedIndex, ChainRow};
ghost use Rattle.known.specs.Rows.{SomeChains, label_count};
ghost use Rattle.known.specs.Known.{Tabled};
ghost use Rattle.opened.specs.Passing.{pages_in, Room, Marked, Lowered, TookPart, AllMarked, Copied, Staging, SomeStaging, KeptStaged, OpenedStaged};

use digests::root_digest;
use known::{fill, is_known, label_count, open_labels};
use limits::MOST;
use word::{below_in, from_in, records_in, second_word};

// How many chains are passed over, by the second word of a chain: those below it where it has a known page.
fn passed_over(word: u64, closed: bool) -> usize
    ensures { (result ≡ cond closed (below_in word) 0) × (result < 2 ^ 14) }
{
    if closed { below_in(word) } else { 0 }
}

// At first no page is known.
fn begin_marks(chains: &[u64], m: usize, marks: &mut [u8])
    requires { (2 * m ≤ length chains.now) × (m ≤ length marks.old) × ((i : ℕ) → i < m → label_count (get_or chains.now (2 * i) 0) ≤ deepest) }
    ensures { (i : ℕ) → i < m → get_or marks.new i 0 ≡ label_count (get_or chains.now (2 * i) 0) }
{
    for i in 0..m {
        marks[i] = label_count(chains[2 * i]) as u8;
    }
}

// The marks are lowered to the pages that the table knows.
fn lower_marks(
    s: &[u8],
    heads: &[u32],
    words: &[u64],
    root: &[u8],
    u: &[u8],
    chains: &[u64],
    m: usize,
    marks: &mut [u8],
)
    requires { Tabled s.now heads.now words.now × (length root.now ≡ digest_length) × Marked u.now chains.now m marks.old × (m ≤ length marks.old) }
    ensures { Lowered s.now heads.now words.now root.now u.now chains.now m marks.old marks.new }
{
    let mut i = 0;
    // The position moves past the chains below a known page.
    while i < m {
        let word = chains[2 * i];
        let open = open_labels(s, heads, words, root, u, word, marks[i] as usize);
        marks[i] = open as u8;
        i += 1 + passed_over(chains[2 * i + 1], open < label_count(word));
    }
}

// One part of the first register's labels, from the start-th chain on, is taken in: where the next part begins, unless the second register's
// root is known by now.
fn take_part(
    s: &[u8],
    known: &[u64],
    n: usize,
    start: usize,
    root: &[u8],
    heads: &mut [u32],
    words: &mut [u64],
    u: &[u8],
    chains: &[u64],
    m: usize,
    top: &[u8],
    marks: &mut [u8],
) -> Option<usize>
    requires { SomeChains s.now known.now n × (start ≤ n) × (length heads.old ≡ 4096) × (length words.old ≡ 4096) × (length s.now < 2 ^ 32) × (length root.now ≡ digest_length) × Marked u.now chains.now m marks.old × (m ≤ length marks.old) × (length top.now ≡ digest_length) }
    ensures { TookPart s.now known.now n start root.now u.now chains.now m top.now marks.old marks.new result }
{
    let next = fill(s, known, n, start, heads, words);
    lower_marks(s, heads, words, root, u, chains, m, marks);
    if is_known(s, heads, words, root, top) {
        return None;
    }
    Some(next)
}

// Each chain of the second register is marked with how many of its pages come before one that is known. Whether the second's root is opened;
// where it is not, the marks are of no use.
fn mark_known(
    s: &[u8],
    known: &[u64],
    n: usize,
    u: &[u8],
    chains: &[u64],
    m: usize,
    marks: &mut [u8],
) -> bool
    requires { ChainRow s.now known.now n × ChainRow u.now chains.now m × (m ≤ length marks.old) × (length s.now ≤ longest) }
    ensures { (t v : SpeltTree) → judge s.now ≡ accepted t → judge u.now ≡ accepted v → AllMarked t v marks.new result }
{
    let root = root_digest(s, known, n);
    let top = root_digest(u, chains, m);
    let mut heads = [0u32; 4096];
    let mut words = [0u64; 4096];
    begin_marks(chains, m, marks);
    let Some(first) = take_part(
        s, known, n, 0, &root, &mut heads, &mut words, u, chains, m, &top, marks,
    ) else {
        return false;
    };
    let mut done = first;
    // A part has as many chains as the table has room for.
    while done < n {
        let Some(next) = take_part(
            s, known, n, done, &root, &mut heads, &mut words, u, chains, m, &top, marks,
        ) else {
            return false;
        };
        done = next;
    }
    true
}

// How many records are staged, and how many pages are opened.
#[derive(Clone, Copy)]
pub struct Opening {
    pub staged: usize,
    pub opened: usize,
}

// The words from one place of the index to another go into the row, as words of the second register. The place after them.
fn copy_words(index: &[u64], from: usize, to: usize, row: &mut [u64], at: usize) -> usize
    requires { Room index.now row.old × (from ≤ to) × (to ≤ length index.now) × (at ≤ from) }
    ensures { Copied index.now row.old from to at row.new result }
{
    let mut k = at;
    for i in from..to {
        row[k] = second_word(index[i]);
        k += 1;
    }
    k
}

// The last pass, where the root is opened: the opened pages are counted, and the words of all records but those under known pages go to the
// front of the row.
fn stage_kept(chains: &[u64], m: usize, marks: &[u8], index: &[u64], row: &mut [u64]) -> Opening
    requires { Room index.now row.old × SomeStaging chains.now m marks.now index.now × (m ≤ length marks.now) }
    ensures { (u : List ℕ) (digests : List (List ℕ)) (cs : List Chain) → Staging u chains.now m marks.now index.now digests cs → KeptStaged index.now digests cs row.new result }
{
    let mut opened = 1;
    let mut from = 0;
    let mut staged = 0;
    let mut i = 0;
    // The position moves past the chains below a known page.
    while i < m {
        let open = marks[i] as usize;
        let word = chains[2 * i + 1];
        opened += open;
        if label_count(chains[2 * i]) <= open {
            i += 1;
            continue;
        }
        let to = from_in(word);
        staged = copy_words(index, from, to, row, staged);
        from = to + records_in(word);
        i += 1 + below_in(word);
    }
    staged = copy_words(index, from, index.len(), row, staged);
    Opening { staged, opened }
}

// The words of the second register's records in opened pages, in key order, go to the front of the row; the opened pages are counted.
pub fn open_pages(
    s: &[u8],
    known: &[u64],
    n: usize,
    u: &[u8],
    chains: &[u64],
    m: usize,
    index: &[u64],
    count: usize,
    row: &mut [u64],
) -> Opening
    requires { ChainRow s.now known.now n × ChainRow u.now chains.now m × AcceptedIndex u.now index.now count × (count ≤ length row.old) × (length s.now ≤ longest) × (length u.now ≤ longest) }
    ensures { (v : SpeltTree) → judge u.now ≡ accepted v → OpenedStaged (pages_in (judge s.now)) v index.now count result row.new }
{
    let mut marks = [0u8; MOST];
    let opens = mark_known(s, known, n, u, chains, m, &mut marks);
    if !opens {
        return Opening {
            staged: 0,
            opened: 0,
        };
    }
    stage_kept(chains, m, &marks, &index[..count], row)
}
