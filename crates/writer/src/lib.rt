// The writer: the table of a row of records. The functions are for the crates above and no public calls.
#![tactic(auto)]

mod pages; // the recursion over the pages
pub mod refusal; // a refusal of a writing call

ghost use Rattle.std.specs.Prelude.{◌≡◌, true, cond, ◌++◌, ◌-◌, ◌≤◌, min, length, take};
ghost use Rattle.limits.specs.Limits.{longest};
ghost use Rattle.bytestring.specs.Bytes.{zeros};
ghost use Rattle.tree.specs.Table.{table_of};
ghost use Rattle.fips180.specs.Hash.{sha256};
ghost use Rattle.index.specs.Chain.{Labelled};
ghost use Rattle.row.specs.Row.{Row, records_of};
ghost use Rattle.labels.specs.Label.{EachLabelled};
ghost use Rattle.writer.specs.Wrote.{page_at, Written};
ghost use Rattle.writer.specs.Output.{table_answer, table_output, table_headed};

use crate::pages::{Wrote, write_page};
use crate::refusal::{refuse, refuse_headed};
use answer::Refusal;
use bytestring::{clear, same_bytes};
use head::{Head, Headed};
use labels::page_digest;
use layout::runs::top_layer;
use value::Digest;

// At most so many bytes of an output are used: a longer table is no register.
fn used(n: usize) -> usize
    ensures { result ≡ min n longest }
{
    n.min(limits::LONGEST)
}

// Zeros after the table of this length that stands at the front of the output.
fn finish(out: &mut [u8], len: usize) -> u32
    requires { (len ≤ length out.old) × (len ≤ longest) }
    ensures count { result ≡ len }
    ensures output { out.new ≡ take len out.old ++ zeros (length out.old - len) }
{
    clear(&mut out[len..]);
    len as u32
}

// The pages of the first n records of a row, from the root at this layer down.
fn write_pages(
    s: &[u8],
    u: &[u8],
    first_chains: &[u64],
    second_chains: &[u64],
    row: &[u64],
    n: usize,
    top: usize,
    out: &mut [u8],
) -> Option<Wrote>
    requires { Row s.now u.now row.now n × EachLabelled s.now first_chains.now × EachLabelled u.now second_chains.now }
    ensures { Written (page_at s.now u.now row.now 0 n top) out.old out.new result }
{
    // One half of the memory is for the pass that measures, the other for the pass that writes.
    let mut keys = [0u8; 32768];
    let mut notes = [0u64; 128];
    write_page(
        s,
        u,
        first_chains,
        second_chains,
        row,
        0,
        n,
        top,
        &mut keys,
        &mut notes,
        out,
    )
}

// The table of the first n records of a row, and zeros after it; where it does not fit, number 13 and zeros.
pub fn write_table(
    s: &[u8],
    u: &[u8],
    first_chains: &[u64],
    first_count: usize,
    second_chains: &[u64],
    second_count: usize,
    row: &[u64],
    n: usize,
    out: &mut [u8],
) -> Result<u32, Refusal>
    requires { Row s.now u.now row.now n × Labelled s.now first_chains.now first_count × Labelled u.now second_chains.now second_count }
    ensures answer { result ≡ table_answer (table_of (records_of s.now u.now row.now n)) (length out.old) }
    ensures output { out.new ≡ table_output (table_of (records_of s.now u.now row.now n)) (length out.old) }
{
    let top = top_layer(row, n);
    let room = used(out.len());
    let first_end = 2 * first_count;
    let second_end = 2 * second_count;
    let labels = &first_chains[..first_end];
    let others = &second_chains[..second_end];
    let Some(w) = write_pages(s, u, labels, others, row, n, top, &mut out[..room]) else {
        return refuse(out, Refusal::NoRoom);
    };
    Ok(finish(out, w.len))
}

// The digest of a root page that was written, whose first entry is the record at this position. That of the lent register's root is at hand.
fn written_digest(
    s: &[u8],
    u: &[u8],
    first_chains: &[u64],
    second_chains: &[u64],
    row: &[u64],
    n: usize,
    first: usize,
    page: &[u8],
    root: &[u8],
    digest: Digest,
) -> Digest
    requires { EachLabelled s.now first_chains.now × EachLabelled u.now second_chains.now × (n ≤ length row.now) × (digest ≡ sha256 root.now) }
    ensures { result ≡ sha256 page.now }
{
    if same_bytes(root, page) {
        return digest;
    }
    page_digest(s, u, first_chains, second_chains, row, first, n, page)
}

// The same table for a call that is lent a head, whose digest is that of this root page: the head goes on to that of the records.
pub fn write_headed(
    s: &[u8],
    u: &[u8],
    first_chains: &[u64],
    first_count: usize,
    second_chains: &[u64],
    second_count: usize,
    row: &[u64],
    n: usize,
    root: &[u8],
    head: Head,
    out: &mut [u8],
) -> Headed
    requires { Row s.now u.now row.now n × Labelled s.now first_chains.now first_count × Labelled u.now second_chains.now second_count × (head.digest ≡ sha256 root.now) }
    ensures headed { result ≡ table_headed (records_of s.now u.now row.now n) head (length out.old) }
    ensures output { out.new ≡ table_output (table_of (records_of s.now u.now row.now n)) (length out.old) }
{
    let top = top_layer(row, n);
    let room = used(out.len());
    let first_end = 2 * first_count;
    let second_end = 2 * second_count;
    let labels = &first_chains[..first_end];
    let others = &second_chains[..second_end];
    let Some(w) = write_pages(s, u, labels, others, row, n, top, &mut out[..room]) else {
        return refuse_headed(out, Refusal::NoRoom, head);
    };
    let own = w.own;
    let lent = head.digest;
    let digest = written_digest(
        s,
        u,
        labels,
        others,
        row,
        n,
        w.first,
        &out[..own],
        root,
        lent,
    );
    let count = n as u32;
    let layer = top as u32;
    let moved = Head {
        count,
        layer,
        digest,
    };
    let len = finish(out, w.len);
    Headed {
        answer: Ok(len),
        head: moved,
    }
}
