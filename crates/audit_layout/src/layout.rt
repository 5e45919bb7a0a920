// Each object's slots follow its first one, and each later slot names the first: one pass over the notes.
ghost use Rattle.std.specs.Prelude.{◌≡◌, length};
ghost use Rattle.audit_entries.specs.Vacant.{Vacant};
ghost use Rattle.rules.specs.WellFormed.{apart};
ghost use Rattle.state.specs.Layout.{goes_on};
ghost use Rattle.state.specs.Read.{read};
ghost use Rattle.state.specs.State.{obj_at};
ghost use Rattle.words.specs.Sizes.{state_length};

use crate::sizes::size_at;
use audit_entries::notes::{argument_in, tag_in};
use words::layout::LATER_TAG;
use words::numbers::Slot;

// Whether the object that stands at `first` goes on in slot k.
fn goes_on(s: &[u8], first: Slot, k: Slot) -> bool
    requires { length s.now ≡ state_length }
    ensures { result ≡ goes_on first (obj_at (read s.now) k) }
{
    tag_in(s, k) == LATER_TAG && argument_in(s, k) == first.0
}

// `owed` slots still belong to the object that stands at `first`: two numbers and no Option, since 0 owed asks nothing of `first`. Behind the n slots that are used nothing can be owed.
// The slice and the count stay two parameters: the check's later parts get the same slice with other facts and no count.
pub fn laid_out(s: &[u8], n: usize) -> bool
    requires { (length s.now ≡ state_length) × Vacant s.now n }
    ensures { result ≡ apart (read s.now) }
{
    let mut owed: u16 = 0;
    let mut first = Slot(0);
    for k in 0..n {
        let k = Slot(k as u8);
        if owed == 0 {
            let Some(rest) = size_at(s, k).checked_sub(1) else {
                return false;
            };
            owed = rest;
            first = k;
        } else {
            if !goes_on(s, first, k) {
                return false;
            }
            owed -= 1;
        }
    }
    owed == 0
}
