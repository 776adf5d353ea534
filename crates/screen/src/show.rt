// A screen of the records at the positions from low to before high.
ghost use Rattle.std.specs.Prelude.{◌≡◌, ◌≤◌, length};
ghost use Rattle.tree.specs.Judge.{judge};
ghost use Rattle.judge.specs.Standing.{Stands};
ghost use Rattle.reading.specs.Positions.{accepted_records};
ghost use Rattle.writing.specs.Writing.{records_from};
ghost use Rattle.promises.specs.Counted.{counted_answer, counted_output};
ghost use Rattle.collections.specs.Screen.{screens};
ghost use Rattle.screen.specs.Show.{show_outcome};

use answer::Refusal;
use judge::accepted::Accepted;
use writer::refusal::refuse;
use writing::accepted::write_range;

// So many records stand on a screen.
const PER_SCREEN: usize = 8;

// The number of screens for so many records.
fn screens_for(count: usize) -> usize
    ensures { result ≡ screens count }
{
    count.div_ceil(PER_SCREEN).max(1)
}

// The screen of this number.
pub(crate) fn show(
    accepted: &Accepted,
    low: usize,
    high: usize,
    number: u64,
    out: &mut [u8],
) -> Result<(u32, u32), Refusal>
    requires { Stands accepted.now × (low ≤ high) × (high ≤ length accepted.now.index.now) }
    ensures answer { result ≡ counted_answer (show_outcome (records_from low high (accepted_records (judge accepted.now.register.now))) number (length out.old)) }
    ensures output { out.new ≡ counted_output (show_outcome (records_from low high (accepted_records (judge accepted.now.register.now))) number (length out.old)) (length out.old) }
{
    let screens = screens_for(high - low);
    if screens as u64 <= number {
        return refuse(out, Refusal::NoSuchScreen);
    }
    let first = low + PER_SCREEN * (number as usize);
    let end = first + PER_SCREEN.min(high - first);
    let len = write_range(accepted, first, end, out)?;
    Ok((len, screens as u32))
}
