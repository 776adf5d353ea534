// A register gathered from filed pages, straight into an output. The functions are for the crates above and no public calls.
#![tactic(auto)]

ghost use Rattle.std.specs.Prelude.{List, ◌≤◌, ◌<◌};
ghost use Rattle.page.specs.Page.{RawPage};
ghost use Rattle.summing.specs.Summed.{note_at};
ghost use Rattle.gathering.specs.Gathered.{Notes, GatherSays};
ghost use Rattle.gathering.specs.Inner.{TreeStandsIn, LinkStandsIn, EntriesStandIn, TreeGatheredIn, LinkGatheredIn, EntriesGatheredIn};

use bytestring::write_bytes;
use limits::DEEPEST;
use page_reader::{locate_entry, read_page};
use summing::word_note;
use tree_keys::{linked_page, word_place};

// Filed pages: the sequence that they stand in after the states, the words of their links, and their own words, of which there are n each.
#[derive(Clone, Copy)]
struct FiledPages<'a> {
    states: &'a [u8],
    sequence: &'a [u8],
    labels: &'a [u32],
    pages: &'a [u32],
    n: usize,
}

// The tree under the i-th page, which has this layer: the page, then the trees under its left link and under those after its entries.
// The length of what was gathered; none where the output is too short for it.
#[cycle(gather_entries_gather_link_gather_tree)]
fn gather_tree(filed: &FiledPages, i: usize, layer: usize, out: &mut [u8]) -> Option<usize>
    requires { TreeStandsIn filed.now i layer }
    ensures { TreeGatheredIn filed.now i layer out.old result out.new }
{
    let at = word_place(filed.pages[i]);
    let Ok(p) = read_page(filed.sequence, at) else {
        return None;
    };
    let end = p.end;
    let own = end - at;
    if out.len() < own {
        return None;
    }
    write_bytes(out, &filed.sequence[at..end]);
    if layer == 0 {
        return Some(own);
    }
    let left = gather_link(filed, p.left, layer, &mut out[own..])?;
    let behind = own + left;
    let below = gather_entries(filed, p.first, p.count, layer, &mut out[behind..])?;
    Some(behind + below)
}

// The tree under the link of a page of this layer, by the place of its digest; place 0 is no link.
#[cycle(gather_entries_gather_link_gather_tree)]
fn gather_link(filed: &FiledPages, link: usize, layer: usize, out: &mut [u8]) -> Option<usize>
    requires { LinkStandsIn filed.now link layer }
    ensures { LinkGatheredIn filed.now link layer out.old result out.new }
{
    if link == 0 {
        return Some(0);
    }
    let i = linked_page(filed.states, filed.sequence, filed.labels, filed.n, link);
    gather_tree(filed, i, layer - 1, out)
}

// The trees under the links after the entries from a place on, in a page of this layer. The page was read before, so that its entries need
// only be located.
#[cycle(gather_entries_gather_link_gather_tree)]
fn gather_entries(
    filed: &FiledPages,
    first: usize,
    count: usize,
    layer: usize,
    out: &mut [u8],
) -> Option<usize>
    requires { EntriesStandIn filed.now first count layer }
    ensures { EntriesGatheredIn filed.now first count layer out.old result out.new }
{
    let mut total = 0;
    let mut at = first;
    for j in 0..count {
        let Ok(e) = locate_entry(filed.sequence, at) else {
            return None;
        };
        let more = gather_link(filed, e.link, layer, &mut out[total..])?;
        total += more;
        at = e.end;
    }
    Some(total)
}

// The register whose root is the i-th page, at the front of the output. The empty page has no links, as a page of layer 0.
pub fn gather_register(
    states: &[u8],
    sequence: &[u8],
    labels: &[u32],
    pages: &[u32],
    n: usize,
    i: usize,
    out: &mut [u8],
) -> Option<usize>
    requires { ((raws : List RawPage) × Notes states.now sequence.now labels.now pages.now n raws) × (i < n) × (1 ≤ note_at pages.now i) }
    ensures { GatherSays states.now sequence.now labels.now pages.now n i out.old result out.new }
{
    let filed = FiledPages {
        states,
        sequence,
        labels,
        pages,
        n,
    };
    let note = word_note(pages[i]);
    if DEEPEST < note {
        return gather_tree(&filed, i, 0, out);
    }
    gather_tree(&filed, i, note - 1, out)
}
