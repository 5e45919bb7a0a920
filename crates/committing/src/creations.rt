// "Creation makes the one root of an object, with every flag of its kind": its notes, its own slots, and the place of its root.
ghost use Rattle.std.specs.Prelude.{true, ◌≡◌, ◌+◌, ◌*◌, ◌≤◌, length};
ghost use Rattle.words.specs.Sizes.{slot_size, memory_length, entry_size};
ghost use Rattle.words.specs.declared.actions.Action.TheVariants.{CreateTable, CreateDirectory, CreateProcess, CreateEndpoint};
ghost use Rattle.state.specs.Bytes.{bytes};
ghost use Rattle.state.specs.Read.{read};
ghost use Rattle.rules.specs.Buffer.{sound};
ghost use Rattle.rules.specs.Commit.{commit};
ghost use Rattle.committing.specs.Raised.{raised};
ghost use Rattle.committing.specs.Ready.{Ready};

use reading::directories::positions_for;
use words::actions::Spot;
use words::capabilities::{Geometry, Kind};
use words::kinds::root_right;
use words::layout::{DIRECTORY_TAG, ENDPOINT_TAG, PROCESS_TAG, TABLE_TAG};
use words::numbers::Slot;
use words::sizes::{ENTRY_SIZE_U32, HEADER_SIZE_U32, POSITION_SIZE_U32, slots_for};
use writing::notes::store_notes;
use writing::slots::{FIRST_WORDS, fill_slots};
use writing::tables::store_place;

// What a new object begins with: how many slots it takes, its note, and its first words; zeros follow them.
#[derive(Clone, Copy)]
struct Beginning {
    slots: u32,
    tag: u8,
    argument: u8,
    first: [u32; FIRST_WORDS],
}

// The object in its slots from `first` on, and its root.
fn raise(s: &mut [u8], at: Spot, first: Slot, kind: Kind, new: Beginning)
    requires notes_inside { memory_length + 4 * first.0 + 4 * new.slots ≤ length s.old }
    requires slots_inside { slot_size * first.0 + slot_size * new.slots ≤ length s.old }
    requires some_slots { 1 ≤ new.slots }
    requires entry_inside { slot_size * at.table.0 + entry_size * at.entry + entry_size ≤ length s.old }
    ensures { s.new ≡ raised s.old at first kind new }
{
    store_notes(s, first, new.slots, new.tag, new.argument);
    fill_slots(s, first, new.slots, new.first);
    store_place(s, at.table, at.entry, Some(root_right(kind)));
}

// "entries·32 bytes, rounded up to slots"; every entry is blank.
pub(crate) fn commit_create_table(s: &mut [u8], at: Spot, first: Slot, entries: u32)
    requires well_formed { sound s.old ≡ true }
    requires ready { Ready (read s.old) (CreateTable at first entries) }
    ensures { s.new ≡ bytes (commit (read s.old) (CreateTable at first entries)) }
{
    let new = Beginning {
        slots: slots_for(ENTRY_SIZE_U32 * entries),
        tag: TABLE_TAG,
        argument: entries as u8,
        first: [0; FIRST_WORDS],
    };
    raise(s, at, first, Kind::Table(first), new);
}

// "(32 + 8·2^k) bytes, rounded up"; "a directory's root ranges over exactly its positions".
pub(crate) fn commit_create_directory(s: &mut [u8], at: Spot, first: Slot, shape: Geometry)
    requires well_formed { sound s.old ≡ true }
    requires ready { Ready (read s.old) (CreateDirectory at first shape) }
    ensures { s.new ≡ bytes (commit (read s.old) (CreateDirectory at first shape)) }
{
    let positions = positions_for(shape.number);
    let new = Beginning {
        slots: slots_for(HEADER_SIZE_U32 + POSITION_SIZE_U32 * positions),
        tag: DIRECTORY_TAG,
        argument: shape.number as u8,
        first: [shape.size, u32::from(shape.top), shape.start],
    };
    let kind = Kind::Directory {
        object: first,
        low: 0,
        high: positions - 1,
    };
    raise(s, at, first, kind, new);
}

pub(crate) fn commit_create_process(
    s: &mut [u8],
    at: Spot,
    first: Slot,
    table: Slot,
    directory: Slot,
)
    requires well_formed { sound s.old ≡ true }
    requires ready { Ready (read s.old) (CreateProcess at first table directory) }
    ensures { s.new ≡ bytes (commit (read s.old) (CreateProcess at first table directory)) }
{
    let new = Beginning {
        slots: 1,
        tag: PROCESS_TAG,
        argument: 0,
        first: [table.0 as u32, directory.0 as u32, 0],
    };
    raise(s, at, first, Kind::Process(first), new);
}

// No signal waits, and the boot mark is 0: "a mark that no call sets".
pub(crate) fn commit_create_endpoint(s: &mut [u8], at: Spot, first: Slot)
    requires well_formed { sound s.old ≡ true }
    requires ready { Ready (read s.old) (CreateEndpoint at first) }
    ensures { s.new ≡ bytes (commit (read s.old) (CreateEndpoint at first)) }
{
    let new = Beginning {
        slots: 1,
        tag: ENDPOINT_TAG,
        argument: 0,
        first: [0; FIRST_WORDS],
    };
    raise(s, at, first, Kind::Endpoint(first), new);
}
