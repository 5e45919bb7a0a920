// How many slots an object takes: "entries·32 bytes", "(32 + 8·2^k) bytes, rounded up"; "process, endpoint: one slot each".
ghost use Rattle.std.specs.Prelude.{◌≡◌, length};
ghost use Rattle.state.specs.State.{obj_at, size_of};
ghost use Rattle.state.specs.Read.{read};
ghost use Rattle.words.specs.Sizes.{state_length};

use audit_entries::notes::{argument_in, tag_in};
use reading::directories::positions_in;
use words::layout::{DIRECTORY_TAG, LATER_TAG, TABLE_TAG};
use words::numbers::Slot;
use words::sizes::{
    ENTRY_SIZE_U16, HEADER_SIZE_U32, POSITION_SIZE_U32, SLOT_SIZE_U16, SLOT_SIZE_U32,
};

// The slots of what stands in a slot, as its note tells; none where an object goes on. Tags are the layout's numbers (docs/LAYOUT.md).
// `committing` has a size of its own for a buffer of any length, where each read is tested; this is asked of every slot that is used,
// and rounds up in its own width: a call of `slots_for` would widen and cut what is divided.
#[tactic(auto, using(state::proofs::Few::few_positions))]
pub fn size_at(s: &[u8], k: Slot) -> u16
    requires { length s.now ≡ state_length }
    ensures { result ≡ size_of (obj_at (read s.now) k) }
{
    match tag_in(s, k) {
        LATER_TAG => 0,
        TABLE_TAG => (ENTRY_SIZE_U16 * u16::from(argument_in(s, k))).div_ceil(SLOT_SIZE_U16),
        DIRECTORY_TAG => {
            let length = HEADER_SIZE_U32 + POSITION_SIZE_U32 * positions_in(s, k);
            length.div_ceil(SLOT_SIZE_U32) as u16
        }
        _ => 1,
    }
}
