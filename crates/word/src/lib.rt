// The words of rows: a record has one and a chain two, and a note on a key and a link in a table have one each. The functions are for the
// crates above and no public calls.
#![tactic(auto)]

ghost use Rattle.std.specs.Prelude.{◌≡◌, ◌/◌, ◌%◌, ◌^◌, ◌≤◌, ◌<◌};
ghost use Rattle.word.specs.Word.{page_in, entry_in, layer_in, from_second, is_first, register_in, second_word, RecordWord, link_in, above_in, end_in, from_in, records_in, below_in, SpanWord, size_in, NoteWord, place_in, older_in};

// A place in a register is below this.
const PLACE: u64 = 0x100_0000;

// The two places of a word are together below this.
const PLACES: u64 = 0x1_0000_0000_0000;

// The third number of a word is below this.
const THIRD: u64 = 0x100;

// A word of the second register has this added.
const SECOND: u64 = 0x1000_0000_0000_0000;

// A count in the second word of a chain is below this.
const COUNT: u64 = 0x2000;

// The counts of records and of chains in that word stand from these on.
const RECORDS: u64 = PLACE * COUNT;

const CHAINS: u64 = RECORDS * COUNT;

// The length in a note is below this.
const LENGTH: u64 = SECOND / PLACES;

// The place of a link's digest in a table is below this.
const LINK: u64 = 0x1_0000_0000;

// A field of a word: it counts in steps of FROM, and is below BELOW. Both are constants, so that no division is left.
fn field<const FROM: u64, const BELOW: u64>(word: u64) -> usize
    requires { (0 < FROM) × (0 < BELOW) }
    ensures { result ≡ word / FROM % BELOW }
{
    (word / FROM % BELOW) as usize
}

// The word of a record of the first register, or the first word of a chain: two places and a third number.
pub fn record_word(page: usize, entry: usize, third: usize) -> u64
    requires { (page < 2 ^ 24) × (entry < 2 ^ 24) × (third < 256) }
    ensures { RecordWord result page entry third }
{
    page as u64 + entry as u64 * PLACE + third as u64 * PLACES
}

// The place of a record's page.
pub fn page_in(word: u64) -> usize
    ensures { result ≡ page_in word }
{
    (word % PLACE) as usize
}

// The place of a record's entry.
pub fn entry_in(word: u64) -> usize
    ensures { result ≡ entry_in word }
{
    field::<PLACE, PLACE>(word)
}

// The layer of a record's key, or at first the depth of its page.
pub fn layer_in(word: u64) -> usize
    ensures { result ≡ layer_in word }
{
    field::<PLACES, THIRD>(word)
}

// The word of the first register with this layer.
pub fn with_layer(word: u64, layer: u32) -> u64
    requires { layer < 256 }
    ensures { RecordWord result (page_in word) (entry_in word) layer }
{
    word % PLACES + layer as u64 * PLACES
}

// Whether a word belongs to the first of two registers.
pub fn is_first(word: u64) -> bool
    ensures { result ≡ is_first word }
{
    word < SECOND
}

// Which register it belongs to, as a number: 0 for the first.
pub fn register_in(word: u64) -> usize
    ensures { result ≡ register_in word }
{
    (word / SECOND) as usize
}

// A word of the first register as one of the second.
pub fn second_word(word: u64) -> u64
    requires { word < from_second }
    ensures { result ≡ second_word word }
{
    word + SECOND
}

// The place of a chain's first label, by its first word; 0 where it has none.
pub fn link_in(word: u64) -> usize
    ensures { result ≡ link_in word }
{
    entry_in(word)
}

// How many pages of a chain are above its page with entries, by its first word.
pub fn above_in(word: u64) -> usize
    ensures { result ≡ above_in word }
{
    layer_in(word)
}

// The second word of a chain: where its page ends, and three counts.
pub fn span_word(end: usize, from: usize, records: usize, below: usize) -> u64
    requires { end < 2 ^ 24 }
    ensures { SpanWord result end from records below }
{
    end as u64
        + from as u64 % COUNT * PLACE
        + records as u64 % COUNT * RECORDS
        + below as u64 % COUNT * CHAINS
}

// Where a chain's page with entries ends, by its second word.
pub fn end_in(word: u64) -> usize
    ensures { result ≡ end_in word }
{
    page_in(word)
}

// How many records come before those of a chain.
pub fn from_in(word: u64) -> usize
    ensures { result ≡ from_in word }
{
    field::<PLACE, COUNT>(word)
}

// How many records a chain has, with those below it.
pub fn records_in(word: u64) -> usize
    ensures { result ≡ records_in word }
{
    field::<RECORDS, COUNT>(word)
}

// How many chains are below a chain.
pub fn below_in(word: u64) -> usize
    ensures { result ≡ below_in word }
{
    field::<CHAINS, COUNT>(word)
}

// The note on the key of a word, of this length, whose entry ends at next.
pub fn note_word(word: u64, next: usize, size: usize) -> u64
    requires { (next < 2 ^ 24) × (size ≤ 256) }
    ensures { NoteWord word next size result }
{
    word % PLACE + next as u64 * PLACE + size as u64 * PLACES + word / SECOND * SECOND
}

// The length of the key that a note is about.
pub fn size_in(note: u64) -> usize
    ensures { result ≡ size_in note }
{
    field::<PLACES, LENGTH>(note)
}

// A link in a table: the place of its digest, and the number of the link before it with the same first bits.
pub fn link_word(place: usize, older: u32) -> u64
    requires { place < 2 ^ 32 }
    ensures { (place_in result ≡ place) × (older_in result ≡ older) }
{
    place as u64 + older as u64 * LINK
}

// The place of the digest of a link in a table.
pub fn place_in(word: u64) -> usize
    ensures { result ≡ place_in word }
{
    (word % LINK) as usize
}

// The number of the link before it.
pub fn older_in(word: u64) -> usize
    ensures { result ≡ older_in word }
{
    (word / LINK) as usize
}
