// Where the fields of a state stand, and the numbers that tell what stands there: docs/LAYOUT.md for the code. The sizes are in sizes.rt.
use crate::sizes::{CLOCK_OFFSET, MEMORY_LENGTH};

// The note of slot k stands at NOTES + NOTE_SIZE * k: a tag, an argument, and two zeros.
pub const NOTES: usize = MEMORY_LENGTH;

pub const NOTE_ARGUMENTS: usize = NOTES + 1;

pub const NOTE_SIZE: usize = 4;

// What a tag says stands in the slot: numbers and no enum, as docs/LAYOUT.md has them in the bytes and `tag_of` in the contracts.
pub const FREE_TAG: u8 = 0;

pub const LATER_TAG: u8 = 1;

pub const TABLE_TAG: u8 = 2;

pub const DIRECTORY_TAG: u8 = 3;

pub const PROCESS_TAG: u8 = 4;

pub const ENDPOINT_TAG: u8 = 5;

// A word, and the spare bytes behind the clock's.
pub const WORD_SIZE: usize = 4;

pub const SPARE_OFFSET: usize = CLOCK_OFFSET + WORD_SIZE;

pub const SPARE_WORDS: usize = 15;

// The kind of a right, as the first word of its entry has it; 0 where the entry is blank.
pub const BLANK: u32 = 0;

pub const TABLE_KIND: u32 = 1;

pub const DIRECTORY_KIND: u32 = 2;

pub const MEMORY_KIND: u32 = 3;

pub const PROCESS_KIND: u32 = 4;

pub const ENDPOINT_KIND: u32 = 5;

pub const FUNCTION_KIND: u32 = 6;

// The fields of an entry behind its kind, and its words in all.
pub const FLAGS_AT: usize = 4;

pub const LOW_AT: usize = 8;

pub const HIGH_AT: usize = 12;

pub const OBJECT_AT: usize = 16;

pub const FROZEN_AT: usize = 20;

pub const STAMP_AT: usize = 24;

pub const PARENT_AT: usize = 28;

pub const ENTRY_WORDS: usize = 8;

// The header of a directory begins with the size order; five of its words are not used.
pub const TOP_AT: usize = 4;

pub const START_AT: usize = 8;

pub const HEADER_SPARE_AT: usize = 12;

pub const HEADER_SPARE_WORDS: usize = 5;

// The first byte of a position: 0 where it is empty. Its flags, and its frame or child.
pub const PAGE: u8 = 1;

pub const CHILD: u8 = 2;

pub const POSITION_FLAGS_AT: usize = 1;

pub const POSITION_VALUE_AT: usize = 4;

// A process begins with its table, an endpoint with its count; behind them zeros to the end of the slot.
pub const DIRECTORY_NAMED_AT: usize = 4;

pub const BOOT_MARK_AT: usize = 4;

pub const OBJECT_SPARE_AT: usize = 8;

pub const OBJECT_SPARE_WORDS: usize = 14;

pub const SLOT_WORDS: usize = 16;
