// Which record is kept, of two rows' next records.
ghost use Rattle.std.specs.Prelude.{◌≡◌, ◌+◌, ◌≤◌, length};
ghost use Rattle.value.specs.Value.{digest_length};
ghost use Rattle.row.specs.Row.{source_of};
ghost use Rattle.choice.specs.Choice.{value_order, value_at, word_of, keeps_first, word_of_both, keeps_of_both, candidate_of, rest_end};

use key_order::compare;
use row::bytes::value_of;
use std::cmp::Ordering;
use value::Value;

// Two rows are merged, where of two values under one key the greater is kept; or of the second row's records those are kept that the first
// row's do not hold, key and value.
#[derive(Clone, Copy)]
pub enum Policy {
    Merged,
    Lacking,
}

// The word whose turn it is, whether it is kept, whether the first row goes on, and whether the second does.
#[derive(Clone, Copy)]
pub struct Candidate {
    pub word: u64,
    pub kept: bool,
    pub first: bool,
    pub second: bool,
}

// The order of two values: of their digests and, where these are equal, of their codecs.
fn compare_values(v: Value, w: Value) -> Ordering
    ensures { result ≡ value_order v w }
{
    compare(&v[1..], &w[1..]).then_with(|| compare(&v[..1], &w[..1]))
}

// The order of the values of two words, whose digests stand at these places.
fn order_of_values(
    s: &[u8],
    u: &[u8],
    first: u64,
    place: usize,
    second: u64,
    other: usize,
) -> Ordering
    requires { (place + digest_length ≤ length (source_of s.now u.now first)) × (other + digest_length ≤ length (source_of s.now u.now second)) }
    ensures { result ≡ value_order (value_at s.now u.now first place) (value_at s.now u.now second other) }
{
    let v = value_of(s, u, first, place);
    let w = value_of(s, u, second, other);
    compare_values(v, w)
}

// Of two words for records under one key, whose values stand in this order, the one whose turn it is.
fn word_of_both(policy: Policy, values: Ordering, first: u64, second: u64) -> u64
    ensures { result ≡ word_of_both policy values first second }
{
    match policy {
        Policy::Merged => match values {
            Ordering::Less => second,
            Ordering::Equal | Ordering::Greater => first,
        },
        Policy::Lacking => second,
    }
}

// Of two words for records under one key: the second, or the word of the greater value. The values' digests stand at these places.
pub fn word_of(
    s: &[u8],
    u: &[u8],
    greater: bool,
    first: u64,
    place: usize,
    second: u64,
    other: usize,
) -> u64
    requires { (place + digest_length ≤ length (source_of s.now u.now first)) × (other + digest_length ≤ length (source_of s.now u.now second)) }
    ensures { result ≡ word_of greater (value_at s.now u.now first place) (value_at s.now u.now second other) first second }
{
    if !greater {
        return second;
    }
    let values = order_of_values(s, u, first, place, second, other);
    word_of_both(Policy::Merged, values, first, second)
}

// Whether a record of the first row is kept whose key the second row has not.
fn keeps_first(policy: Policy) -> bool
    ensures { result ≡ keeps_first policy }
{
    matches!(policy, Policy::Merged)
}

// Whether one of two records under one key is kept, where their values stand in this order.
fn keeps_of_both(policy: Policy, values: Ordering) -> bool
    ensures { result ≡ keeps_of_both policy values }
{
    match policy {
        Policy::Merged => true,
        Policy::Lacking => values.is_ne(),
    }
}

// Of the next words of two rows the one whose turn it is. Their keys stand in this order, and their values' digests at these places.
pub fn candidate_of(
    s: &[u8],
    u: &[u8],
    policy: Policy,
    order: Ordering,
    first: u64,
    place: usize,
    second: u64,
    other: usize,
) -> Candidate
    requires { (place + digest_length ≤ length (source_of s.now u.now first)) × (other + digest_length ≤ length (source_of s.now u.now second)) }
    ensures { result ≡ candidate_of policy order (value_at s.now u.now first place) (value_at s.now u.now second other) first second }
{
    match order {
        Ordering::Less => Candidate {
            word: first,
            kept: keeps_first(policy),
            first: true,
            second: false,
        },
        Ordering::Equal => {
            let values = order_of_values(s, u, first, place, second, other);
            Candidate {
                word: word_of_both(policy, values, first, second),
                kept: keeps_of_both(policy, values),
                first: true,
                second: true,
            }
        }
        Ordering::Greater => Candidate {
            word: second,
            kept: true,
            first: false,
            second: true,
        },
    }
}

// Where the second row is used up, the first's words from i up to here are kept: all up to n, or none.
pub fn rest_end(policy: Policy, i: usize, n: usize) -> usize
    requires { i ≤ n }
    ensures { (result ≡ rest_end policy i n) × (i ≤ result) × (result ≤ n) }
{
    match policy {
        Policy::Merged => n,
        Policy::Lacking => i,
    }
}
