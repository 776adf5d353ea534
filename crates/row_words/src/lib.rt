// Words of a row: one more, one less, and those of a second register. The functions are for the crates above and no public calls.
#![tactic(auto)]

ghost use Rattle.std.specs.Prelude.{◌≡◌, true, ◌≤◌, ◌<◌, length};
ghost use Rattle.value.specs.Value.{is_value};
ghost use Rattle.key.specs.Key.{lawful};
ghost use Rattle.row_words.specs.RowWords.{BelowSecond, ToSecond, LeftOut, Inserted, Single};

use key_calls::layers::layer_of;
use page_writer::{write_entry, write_page_start};
use value::Value;
use word::{record_word, second_word};

// The first n words of an index become words of the second register.
pub fn to_second(index: &mut [u64], n: usize)
    requires { (n ≤ length index.old) × BelowSecond index.old n }
    ensures { ToSecond index.old n index.new }
{
    for i in 0..n {
        index[i] = second_word(index[i]);
    }
}

// The word at a position is left out of the first n.
pub fn leave_out(row: &mut [u64], n: usize, at: usize)
    requires { (at < n) × (n ≤ length row.old) }
    ensures { LeftOut row.old n at row.new }
{
    row.copy_within(at + 1..n, at);
}

// A word goes to a position among the first n of a row, and those from there on move up by one.
pub fn insert_word(row: &mut [u64], n: usize, at: usize, word: u64)
    requires { (at ≤ n) × (n < length row.old) }
    ensures { Inserted row.old n at word row.new }
{
    row.copy_within(at..n, at + 1);
    row[at] = word;
}

// One record alone, as the second register: the start of a page and the record's entry, and the word that leads to it.
pub fn single(key: &[u8], value: Value, page: &mut [u8]) -> u64
    requires { (lawful key.now ≡ true) × (is_value value ≡ true) × (length page.old ≡ 512) }
    ensures { Single key.now value page.new result }
{
    let layer = layer_of(key) as usize;
    let at = write_page_start(page, 1);
    write_entry(&mut page[at..], &key[..0], key, None, value);
    second_word(record_word(0, at, layer))
}
