// The sizes, lengths and bounds that document 01 names, for the code: specs/Sizes.antt and WellFormed.antt have them for the rules. Offsets
// and lengths are `usize`; where a size is worked out in a narrower number its name ends in that number's type.
ghost use Rattle.std.specs.Prelude.{◌≡◌};
ghost use Rattle.words.specs.Sizes.{slots_for};

// "exactly 17,472 bytes: 16,384 of kernel memory, 1,024 of slot bookkeeping, 64 for the clock and spare"
pub const STATE_LENGTH: usize = 17472;

pub const MEMORY_LENGTH: usize = 16384;

pub const CLOCK_OFFSET: usize = 17408;

// "Kernel addresses run from 0x20000000 to below 0x20004000 in 256 slots of 64 bytes"
pub const KERNEL_START: u32 = 0x20000000;

pub const KERNEL_END: u32 = 0x20004000;

pub const SLOT_COUNT: usize = 256;

pub const SLOT_COUNT_U32: u32 = SLOT_COUNT as u32;

pub const SLOT_SIZE: usize = 64;

pub const SLOT_SIZE_U16: u16 = SLOT_SIZE as u16;

pub const SLOT_SIZE_U32: u32 = SLOT_SIZE as u32;

pub const SLOT_SIZE_U64: u64 = SLOT_SIZE as u64;

// "table of 1..64 entries, 32 bytes each"
pub const ENTRY_SIZE: usize = 32;

pub const ENTRY_SIZE_U16: u16 = ENTRY_SIZE as u16;

pub const ENTRY_SIZE_U32: u32 = ENTRY_SIZE as u32;

pub const MOST_ENTRIES: u32 = 64;

// One number for each possible table entry, two a slot: 2 * slot + entry.
pub const PLACE_COUNT: usize = 512;

pub const PLACE_COUNT_U32: u32 = PLACE_COUNT as u32;

// "page directory of 2^k entries, k from 1 to 8: (32 + 8·2^k) bytes"
pub const HEADER_SIZE: usize = 32;

pub const HEADER_SIZE_U32: u32 = HEADER_SIZE as u32;

pub const POSITION_SIZE: usize = 8;

pub const POSITION_SIZE_U32: u32 = POSITION_SIZE as u32;

// "size order 6..31, number order 1..8, sum at most 32"
pub const LEAST_SIZE_ORDER: u32 = 6;

pub const MOST_SIZE_ORDER: u32 = 31;

pub const LEAST_NUMBER_ORDER: u32 = 1;

pub const MOST_NUMBER_ORDER: u32 = 8;

pub const MOST_ORDER_SUM: u32 = 32;

// Bytes "rounded up to slots".
pub fn slots_for(bytes: u32) -> u32
    ensures { result ≡ slots_for bytes }
{
    bytes.div_ceil(SLOT_SIZE_U32)
}

// "frozen for fewer than 8 ticks"
pub const QUIET_TICKS: u32 = 8;

// "count is 2^32−1"; "NM takes min(count, 2^31−1) since the answer is a signed word"; "clock mod 2^31"
pub const FULL_COUNT: u32 = 0xFFFFFFFF;

pub const MOST_TAKEN: u32 = 0x7FFFFFFF;

pub const ANSWER_END: u32 = 0x80000000;

// "functions 0..65535"
pub const LAST_FUNCTION: u32 = 65535;

pub const FUNCTION_COUNT: u32 = 65536;
