// The pages of a path, by the row of chains. A search opens the pages of a chain where the key, or the gap in which it would stand, is among
// the records under the chain or at their ends.
ghost use Rattle.std.specs.Prelude.{◌≡◌, ◌*◌, ◌≤◌, length};
ghost use Rattle.word.specs.Word.{page_in, above_in, end_in, from_in, records_in};
ghost use Rattle.limits.specs.Limits.{longest};
ghost use Rattle.judge.specs.Standing.{Stands};
ghost use Rattle.path_writer.specs.Chains.{covers, pages_at, PathMeasured, ShortPath, PathSays};

use answer::Refusal;
use bytestring::{clear, write_bytes};
use judge::accepted::Accepted;
use word::{above_in, end_in, from_in, page_in, records_in};
use writer::refusal::refuse;

// A page without entries has so many bytes.
const EMPTY_PAGE: usize = 47;

// Whether the records under a chain, with the gaps at their ends, hold the positions from low to before high.
fn chain_covers(span: u64, low: usize, high: usize) -> bool
    ensures { result ≡ covers low high (from_in span) (records_in span) }
{
    let from = from_in(span);
    from <= low && high <= from + records_in(span)
}

// The pages of a chain, one after the other, by its two words.
fn chain_pages(register: &[u8], word: u64, span: u64) -> &[u8]
    requires { (47 * above_in word ≤ page_in word) × (page_in word ≤ end_in span) × (end_in span ≤ length register.now) }
    ensures { result.now ≡ pages_at register.now word span }
{
    let start = page_in(word) - EMPTY_PAGE * above_in(word);
    let end = end_in(span);
    &register[start..end]
}

// These bytes, where the output has room for them, and zeros after them.
fn write_whole(bytes: &[u8], out: &mut [u8]) -> Result<u32, Refusal>
    requires { length bytes.now ≤ longest }
    ensures { PathMeasured bytes.now (length out.old) result out.new }
{
    if out.len() < bytes.len() {
        return refuse(out, Refusal::NoRoom);
    }
    write_bytes(out, bytes);
    clear(&mut out[bytes.len()..]);
    Ok(bytes.len() as u32)
}

// The pages of the chains that hold these positions, one after the other. The empty register has no chain, and its one page is the path.
pub fn write_path(
    accepted: &Accepted,
    low: usize,
    high: usize,
    out: &mut [u8],
) -> Result<u32, Refusal>
    requires { Stands accepted.now × ShortPath accepted.now.register.now low high }
    ensures { PathSays accepted.now.register.now low high (length out.old) result out.new }
{
    let register = accepted.register;
    let chains = accepted.chains;
    let n = chains.len() / 2;
    if n == 0 {
        return write_whole(register, out);
    }
    let mut next = 0;
    for i in 0..n {
        let span = chains[2 * i + 1];
        if !chain_covers(span, low, high) {
            continue;
        }
        let pages = chain_pages(register, chains[2 * i], span);
        if out.len() - next < pages.len() {
            return refuse(out, Refusal::NoRoom);
        }
        write_bytes(&mut out[next..], pages);
        next += pages.len();
    }
    clear(&mut out[next..]);
    Ok(next as u32)
}
