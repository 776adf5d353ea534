// Rows that are lent to a call on a register. A short register gets short rows, so that little is cleared. The function is for the crates above
// and no public call.
#![tactic(auto)]

ghost use Rattle.std.specs.Prelude.{◌≡◌, ◌*◌, length};
ghost use Rattle.lending.specs.Rows.{row_words};

use limits::{FEW, MOST, SHORT};

// Makes a call with a row that has a word for each record of a register and one that has two words for each chain of its pages. The call is
// lent, so that what it wrote is known after it.
pub fn with_rows<T, F: FnMut(&mut [u64], &mut [u64]) -> T>(register: &[u8], call: &mut F) -> T
    requires { (index : _) (chains : _) → length index.now ≡ row_words register.now → length chains.now ≡ 2 * row_words register.now → F.pre call.old index chains }
    ensures { (index : _) × (chains : _) × (index_left : _) × (chains_left : _) × (length index.now ≡ row_words register.now) × (length chains.now ≡ 2 * row_words register.now) × F.step call.old index chains result index_left chains_left call.new }
{
    if register.len() <= SHORT {
        let mut index = [0u64; FEW];
        let mut chains = [0u64; 2 * FEW];
        return call(&mut index, &mut chains);
    }
    let mut index = [0u64; MOST];
    let mut chains = [0u64; 2 * MOST];
    call(&mut index, &mut chains)
}
