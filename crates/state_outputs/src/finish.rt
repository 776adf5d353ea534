// The answer of save and forget once both outputs are written.
ghost use Rattle.std.specs.Prelude.{◌≡◌, List, ℕ, ◌≤◌, length};
ghost use Rattle.promises.specs.Outcome.{Outcome};
ghost use Rattle.states.specs.States.{unsaved};
ghost use Rattle.state_outputs.specs.Outputs.{with_pages, BothWritten, SavedAs};

use answer::Refusal;
use bytestring::clear;
use keeping::Unkept;
use limits::LONGEST;

// Refused: both outputs are zero.
pub fn refuse_both(
    states: &mut [u8],
    pages: &mut [u8],
    refusal: Refusal,
) -> Result<(u32, u32), Refusal>
    ensures { SavedAs (unsaved refusal) (length states.old) (length pages.old) result states.new pages.new }
{
    clear(states);
    clear(pages);
    Err(refusal)
}

// The page sequence has this length and stands at the front of its output: it is refused where it is longer than any sequence, and with
// the state register.
fn finish_length(
    answer: Result<u32, Refusal>,
    size: usize,
    states: &mut [u8],
    pages: &mut [u8],
) -> Result<(u32, u32), Refusal>
    requires { size ≤ length pages.old }
    ensures { (o : Outcome) (ps : List (List ℕ)) → BothWritten answer (Ok size) states.old pages.old o ps → SavedAs (with_pages o ps (length pages.old)) (length states.old) (length pages.old) result states.new pages.new }
{
    match answer {
        Ok(n) => {
            if LONGEST < size {
                return refuse_both(states, pages, Refusal::NoRoom);
            }
            clear(&mut pages[size..]);
            Ok((n, size as u32))
        }
        Err(refusal) => refuse_both(states, pages, refusal),
    }
}

// Number 18 comes before what the state register is refused with, and a sequence that does not fit comes last.
pub fn finish(
    answer: Result<u32, Refusal>,
    kept: Result<usize, Unkept>,
    states: &mut [u8],
    pages: &mut [u8],
) -> Result<(u32, u32), Refusal>
    requires { (o : Outcome) × ((ps : List (List ℕ)) × BothWritten answer kept states.old pages.old o ps) }
    ensures { (o : Outcome) (ps : List (List ℕ)) → BothWritten answer kept states.old pages.old o ps → SavedAs (with_pages o ps (length pages.old)) (length states.old) (length pages.old) result states.new pages.new }
{
    match kept {
        Ok(size) => finish_length(answer, size, states, pages),
        Err(Unkept::Short) => {
            let refusal = answer.err().unwrap_or(Refusal::NoRoom);
            refuse_both(states, pages, refusal)
        }
        Err(Unkept::Shared) => refuse_both(states, pages, Refusal::WrongStates),
    }
}
