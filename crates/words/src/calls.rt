// The twenty calls by their numbers, in the order of document 01's table: numbers and no enum, since C passes them in a word.
pub const CREATE_TABLE: u32 = 1;

pub const DELETE_TABLE: u32 = 2;

pub const DELEGATE: u32 = 3;

pub const FREEZE: u32 = 4;

pub const REMOVE: u32 = 5;

pub const CREATE_DIRECTORY: u32 = 6;

pub const DELETE_DIRECTORY: u32 = 7;

pub const MAP_PAGE: u32 = 8;

pub const REMOVE_PAGE: u32 = 9;

pub const CONSTRUCT: u32 = 10;

pub const DESTRUCT: u32 = 11;

pub const CREATE_PROCESS: u32 = 12;

pub const DELETE_PROCESS: u32 = 13;

pub const CHANGE_TABLE: u32 = 14;

pub const CHANGE_DIRECTORY: u32 = 15;

pub const CREATE_ENDPOINT: u32 = 16;

pub const DELETE_ENDPOINT: u32 = 17;

pub const SEND: u32 = 18;

pub const RECEIVE: u32 = 19;

pub const FUNCTION: u32 = 20;

// "P2 option 0..3 = BS, BM, NS, NM": the two that do not block.
pub const OPTION_NS: u32 = 2;

pub const OPTION_NM: u32 = 3;
