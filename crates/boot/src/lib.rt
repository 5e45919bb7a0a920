// "Boot": the first state, written into a buffer of the right length whatever was there.
#![tactic(auto)]

ghost use Rattle.std.specs.Prelude.{◌≡◌, ◌<◌, length};
ghost use Rattle.words.specs.Sizes.{state_length};
ghost use Rattle.words.specs.Rights.{root_right};
ghost use Rattle.state.specs.Bytes.{bytes};
ghost use Rattle.rules.specs.Boot;
ghost use Rattle.boot.specs.Names.{Some};
ghost use Rattle.boot.specs.Stages.{boot_page, boot_positions, with_objects, with_pages, with_rights};

use words::capabilities::{Kind, Position};
use words::flag_bits::PAGE_FLAGS;
use words::kinds::root_right;
use words::layout::{DIRECTORY_TAG, ENDPOINT_TAG, PROCESS_TAG, TABLE_TAG};
use words::numbers::{KernelAddress, Slot};
use words::sizes::{
    ENTRY_SIZE_U32, HEADER_SIZE_U32, KERNEL_END, KERNEL_START, LAST_FUNCTION, POSITION_SIZE_U32,
    slots_for,
};
use writing::directories::store_position;
use writing::notes::store_notes;
use writing::slots::fill_slots;
use writing::tables::store_place;

// "a 32-entry table at slot 0"
const BOOT_TABLE: u8 = 0;

const BOOT_ENTRIES: u8 = 32;

const TABLE_BYTES: u32 = ENTRY_SIZE_U32 * (BOOT_ENTRIES as u32);

// "a top directory at slot 16 (size order 29, number order 3, start 0, position i holding frame i·2^29 ..)"
const BOOT_DIRECTORY: u8 = 16;

const BOOT_SIZE_ORDER: u32 = 29;

const BOOT_NUMBER_ORDER: u8 = 3;

const BOOT_START: u32 = 0;

const BOOT_POSITIONS: u32 = 1 << BOOT_NUMBER_ORDER;

const LAST_POSITION: u32 = BOOT_POSITIONS - 1;

const FRAME_SIZE: u32 = 1 << BOOT_SIZE_ORDER;

const DIRECTORY_BYTES: u32 = HEADER_SIZE_U32 + POSITION_SIZE_U32 * BOOT_POSITIONS;

// "a process at 18 with both"
const BOOT_PROCESS: u8 = 18;

const TABLE_NAMED: u32 = BOOT_TABLE as u32;

const DIRECTORY_NAMED: u32 = BOOT_DIRECTORY as u32;

// "an endpoint at 19"
const BOOT_ENDPOINT: u8 = 19;

// A mark that is set: the directory's top mark, and "the boot endpoint bears a mark".
const MARK: u32 = 1;

// "a 32-entry table at slot 0; a top directory at slot 16 (size order 29, number order 3, start 0 ..); a process at 18 with both;
// an endpoint at 19", which bears the boot mark. The buffer stays a slice with its length in a clause, as `store_boot` is lent it.
fn store_objects(s: &mut [u8])
    requires { length s.old ≡ state_length }
    ensures { s.new ≡ with_objects s.old }
{
    let table_slots = slots_for(TABLE_BYTES);
    let directory_slots = slots_for(DIRECTORY_BYTES);
    store_notes(s, Slot(BOOT_TABLE), table_slots, TABLE_TAG, BOOT_ENTRIES);
    store_notes(
        s,
        Slot(BOOT_DIRECTORY),
        directory_slots,
        DIRECTORY_TAG,
        BOOT_NUMBER_ORDER,
    );
    store_notes(s, Slot(BOOT_PROCESS), 1, PROCESS_TAG, 0);
    store_notes(s, Slot(BOOT_ENDPOINT), 1, ENDPOINT_TAG, 0);
    fill_slots(
        s,
        Slot(BOOT_DIRECTORY),
        directory_slots,
        [BOOT_SIZE_ORDER, MARK, BOOT_START],
    );
    fill_slots(s, Slot(BOOT_PROCESS), 1, [TABLE_NAMED, DIRECTORY_NAMED, 0]);
    fill_slots(s, Slot(BOOT_ENDPOINT), 1, [0, MARK, 0]);
}

// "Table entries 0..5: roots of table, directory, process, functions 0..65535, all memory, endpoint"
fn store_rights(s: &mut [u8])
    requires { length s.old ≡ state_length }
    ensures { s.new ≡ with_rights s.old }
{
    let kinds = [
        Kind::Table(Slot(BOOT_TABLE)),
        Kind::Directory {
            object: Slot(BOOT_DIRECTORY),
            low: 0,
            high: LAST_POSITION,
        },
        Kind::Process(Slot(BOOT_PROCESS)),
        Kind::Function {
            low: 0,
            high: LAST_FUNCTION,
        },
        Kind::Memory {
            low: KernelAddress(KERNEL_START),
            high: KernelAddress(KERNEL_END),
        },
        Kind::Endpoint(Slot(BOOT_ENDPOINT)),
    ];
    for (e, kind) in kinds.iter().enumerate() {
        store_place(s, Slot(BOOT_TABLE), e as u32, Some(root_right(*kind)));
    }
}

// "position i holding frame i·2^29 with all page flags"
fn page_of(i: u32) -> Position
    requires { i < boot_positions }
    ensures { result ≡ boot_page i }
{
    Position::Page {
        frame: i * FRAME_SIZE,
        flags: PAGE_FLAGS,
    }
}

fn store_pages(s: &mut [u8])
    requires { length s.old ≡ state_length }
    ensures { s.new ≡ with_pages boot_positions s.old }
{
    for i in 0..BOOT_POSITIONS {
        store_position(s, Slot(BOOT_DIRECTORY), i, page_of(i));
    }
}

pub fn store_boot(s: &mut [u8])
    requires { length s.old ≡ state_length }
    ensures { s.new ≡ bytes Boot.boot }
{
    s.fill(0);
    store_objects(s);
    store_rights(s);
    store_pages(s);
}
