// The prefix lengths of a register's entries: one pass over the row of its chains. Keys may be longer than any lawful one.
ghost use Rattle.std.specs.Prelude.{◌*◌, ◌≤◌, length};
ghost use Rattle.limits.specs.Limits.{numbers};
ghost use Rattle.word.specs.Word.{page_in};
ghost use Rattle.judge.specs.Prefixes.{PagePrefixes, RowPrefixes};

use limits::NUMBERS;
use page_keys::prefixes_fit;
use page_reader::read_page;
use word::page_in;

// Whether the prefix lengths of a chain's page with entries are right, by the chain's first word.
fn page_prefixes(s: &[u8], word: u64, buffer: &mut [u8]) -> bool
    requires { numbers ≤ length buffer.old }
    ensures { PagePrefixes s.now (page_in word) result }
{
    let Ok(p) = read_page(s, page_in(word)) else {
        return true;
    };
    prefixes_fit(s, p.first, p.count, buffer)
}

// Whether those of the pages of the first n chains of a row are right.
pub fn prefixes_hold(s: &[u8], row: &[u64], n: usize) -> bool
    requires { 2 * n ≤ length row.now }
    ensures { RowPrefixes s.now row.now n result }
{
    let mut buffer = [0u8; NUMBERS];
    for i in 0..n {
        if !page_prefixes(s, row[2 * i], &mut buffer) {
            return false;
        }
    }
    true
}
