// The records of a result, chosen from two rows.
ghost use Rattle.std.specs.Prelude.{◌≡◌, true, ◌-◌, ◌≤◌, length, take, drop};
ghost use Rattle.limits.specs.Limits.{most};
ghost use Rattle.row.specs.Row.{Row};
ghost use Rattle.choice.specs.Choice.{woven_of, sifted_of, combined_of, Readable, candidate_at, Kept, AppendSays, RowOf, WithinSays, ChooseSays};

use crate::cursor::{Cursor, advance, cursor_at, order_of};
use crate::policy::{Candidate, Policy, candidate_of, rest_end};
use limits::MOST;

// The word goes behind the first k of the row if it is kept, unless that makes more than the limit: how many words there are then.
fn keep(row: &mut [u64], k: usize, limit: usize, word: u64, kept: bool) -> Option<usize>
    requires { (k ≤ limit) × (limit ≤ length row.old) × (limit ≤ most) }
    ensures { Kept row.old k limit word kept row.new result }
{
    if !kept {
        return Some(k);
    }
    if k == limit {
        return None;
    }
    row[k] = word;
    Some(k + 1)
}

// The words of a row from a position up to another, behind the k words chosen so far, if that makes no more than the limit.
fn append(
    row: &mut [u64],
    k: usize,
    limit: usize,
    words: &[u64],
    from: usize,
    to: usize,
) -> Option<usize>
    requires { (k ≤ limit) × (limit ≤ length row.old) × (from ≤ to) × (to ≤ length words.now) }
    ensures { AppendSays row.old k limit (take (to - from) (drop from words.now)) result row.new }
{
    let n = to - from;
    if limit - k < n {
        return None;
    }
    // The library's copy would be memmove, which a program without a C library may not have.
    for i in 0..n {
        row[k + i] = words[from + i];
    }
    Some(k + n)
}

// Of the words at two cursors the one whose turn it is.
fn candidate_at(
    s: &[u8],
    u: &[u8],
    policy: Policy,
    first: &[u64],
    keys: &[u8],
    a: Cursor,
    second: &[u64],
    others: &[u8],
    b: Cursor,
) -> Candidate
    requires { Readable s.now u.now first.now keys.now a × Readable s.now u.now second.now others.now b }
    ensures { result ≡ candidate_at policy s.now u.now first.now keys.now a second.now others.now b }
{
    let order = order_of(keys, a, others, b);
    let i = a.at;
    let j = b.at;
    candidate_of(s, u, policy, order, first[i], a.value, second[j], b.value)
}

// The records of two rows that a policy keeps, in key order, as one row, if they are no more than the limit. Each row has a memory of its own,
// so that the key at its cursor stays held while the other goes on.
fn combine(
    s: &[u8],
    u: &[u8],
    first: &[u64],
    n: usize,
    second: &[u64],
    m: usize,
    policy: Policy,
    limit: usize,
    row: &mut [u64],
) -> Option<usize>
    requires { Row s.now u.now first.now n × Row s.now u.now second.now m × (limit ≤ most) × (limit ≤ length row.old) }
    ensures { WithinSays limit s.now u.now (combined_of policy s.now u.now first.now n second.now m) result row.new }
{
    let mut keys = [0u8; 16384];
    let mut notes = [0u64; 64];
    let mut others = [0u8; 16384];
    let mut marks = [0u64; 64];
    let mut a = cursor_at(s, u, first, n, 0, &mut keys, &mut notes);
    let mut b = cursor_at(s, u, second, m, 0, &mut others, &mut marks);
    let mut k = 0;
    // Each cursor goes on or stays, by the order of the keys.
    while a.at < n {
        if m <= b.at {
            let end = rest_end(policy, a.at, n);
            return append(row, k, limit, first, a.at, end);
        }
        let next = candidate_at(s, u, policy, first, &keys, a, second, &others, b);
        k = keep(row, k, limit, next.word, next.kept)?;
        a = advance(s, u, first, n, a, next.first, &mut keys, &mut notes);
        b = advance(s, u, second, m, b, next.second, &mut others, &mut marks);
    }
    append(row, k, limit, second, b.at, m)
}

// The records of two rows, merged. How many they are; none where they are too many for a register.
pub fn choose(
    s: &[u8],
    u: &[u8],
    first: &[u64],
    n: usize,
    second: &[u64],
    m: usize,
    row: &mut [u64],
) -> Option<usize>
    requires { Row s.now u.now first.now n × Row s.now u.now second.now m × (most ≤ length row.old) }
    ensures { ChooseSays s.now u.now (woven_of true s.now u.now first.now n second.now m) result row.new }
{
    combine(s, u, first, n, second, m, Policy::Merged, MOST, row)
}

// Of the second row's records those that the first row's do not hold, key and value, as a row.
pub fn leave_held(
    s: &[u8],
    u: &[u8],
    first: &[u64],
    n: usize,
    second: &[u64],
    m: usize,
    row: &mut [u64],
) -> usize
    requires { Row s.now u.now first.now n × Row s.now u.now second.now m × (m ≤ length row.old) }
    ensures { RowOf s.now u.now row.new result (sifted_of s.now u.now first.now n second.now m) }
{
    combine(s, u, first, n, second, m, Policy::Lacking, m, row).unwrap_or(0)
}
