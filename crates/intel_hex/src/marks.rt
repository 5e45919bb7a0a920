// Numbers of a record and of a text that more than one crate uses; specs/Marks.antt has them for the rules.

// "type other than 00, 01, 04": data, the end record, an extended linear address record.
pub const DATA_TYPE: u8 = 0;

pub const END_TYPE: u8 = 1;

pub const UPPER_TYPE: u8 = 4;

// Of a record's bytes: where its data begins, behind length, address (two) and type, and how many are not data, the sum with these.
pub const DATA_AT: usize = 4;

pub const FRAME_LENGTH: usize = DATA_AT + 1;

// "an extended linear address record (type 04) for 0x2000": the upper half of the state's addresses, the data of that record.
pub const STATE_UPPER: u16 = 0x2000;

pub const UPPER_LENGTH: usize = 2;

// "48,076 bytes": a state's text as it is written.
pub const TEXT_LENGTH: usize = 48076;

// What a program that reads a text lends for it: room for every text with one address record, in records of 1 byte with CR LF too.
pub const LONGEST_TEXT: usize = 262144;
