// "Freed slots are zeroed and may be used at once": the root's place is blanked, and the object's notes and slots with it.
ghost use Rattle.std.specs.Prelude.{true, ◌≡◌};
ghost use Rattle.words.specs.declared.actions.Action.TheVariants.{Delete};
ghost use Rattle.state.specs.State.{obj_at, size_of};
ghost use Rattle.state.specs.Bytes.{bytes};
ghost use Rattle.state.specs.Read.{read};
ghost use Rattle.rules.specs.Buffer.{sound};
ghost use Rattle.rules.specs.Commit.{commit};
ghost use Rattle.committing.specs.Ready.{Ready};

use reading::directories::positions_in;
use reading::notes::{argument_byte, tag_at};
use words::actions::Spot;
use words::layout::{DIRECTORY_TAG, LATER_TAG, TABLE_TAG};
use words::numbers::Slot;
use words::sizes::{ENTRY_SIZE_U32, HEADER_SIZE_U32, POSITION_SIZE_U32, slots_for};
use writing::notes::clear_notes;
use writing::slots::clear_slots;
use writing::tables::store_place;

// How many slots the object in a slot takes, as its note tells; none where an object goes on. Beside `size_at` of audit_layout,
// which reads a note where it is known to lie and so does not test it again.
fn size_at(s: &[u8], o: Slot) -> u32
    ensures { result ≡ size_of (obj_at (read s.now) o) }
{
    match tag_at(s, o) {
        LATER_TAG => 0,
        TABLE_TAG => slots_for(ENTRY_SIZE_U32 * (argument_byte(s, o) as u32)),
        DIRECTORY_TAG => slots_for(HEADER_SIZE_U32 + POSITION_SIZE_U32 * positions_in(s, o)),
        _ => 1,
    }
}

pub(crate) fn commit_delete(s: &mut [u8], at: Spot, object: Slot)
    requires well_formed { sound s.old ≡ true }
    requires ready { Ready (read s.old) (Delete at object) }
    ensures { s.new ≡ bytes (commit (read s.old) (Delete at object)) }
{
    let n = size_at(s, object);
    store_place(s, at.table, at.entry, None);
    clear_notes(s, object, n);
    clear_slots(s, object, n);
}
