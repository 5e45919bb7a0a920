// The whole buffer: the notes, the spare bytes behind the clock, and the objects. The clock may be any word.
ghost use Rattle.std.specs.Prelude.{true, ◌≡◌, length};
ghost use Rattle.audit_entries.specs.Vacant.{Vacant};
ghost use Rattle.rules.specs.Buffer.{same};
ghost use Rattle.rules.specs.WellFormed.{apart};
ghost use Rattle.state.specs.Bytes.{bytes};
ghost use Rattle.state.specs.Read.{read};
ghost use Rattle.words.specs.Sizes.{state_length};

use crate::notes::notes_stand;
use crate::objects::objects_stand;
use crate::zeros::zeros_in;
use words::layout::{SPARE_OFFSET, SPARE_WORDS};

// Whether a buffer whose objects are laid out is the bytes of the state that it is read as. Slice and count stay two parameters here and below:
// the later parts of the check get the same slice and no count.
pub fn canonical(s: &[u8], n: usize) -> bool
    requires { (length s.now ≡ state_length) × (apart (read s.now) ≡ true) × Vacant s.now n }
    ensures { result ≡ same (bytes (read s.now)) s.now }
{
    notes_stand(s, n) && zeros_in(s, SPARE_OFFSET, SPARE_WORDS) && objects_stand(s, n)
}
