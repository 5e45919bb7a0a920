// "Flags, bit 0 first": the bit of each flag that a call asks for, and all flags of each kind. specs/Rights.antt has the same names for
// the rules.

// "Table: CRT, DEL, FRZ, ADD_SRC, ADD_DST, REM, PROC_CRT, PROC_CPT"
pub const T_CRT: u32 = 0;

pub const T_DEL: u32 = 1;

pub const T_FRZ: u32 = 2;

pub const T_ADD_SRC: u32 = 3;

pub const T_ADD_DST: u32 = 4;

pub const T_REM: u32 = 5;

pub const T_PROC_CRT: u32 = 6;

pub const T_PROC_CPT: u32 = 7;

pub const TABLE_FLAGS: u32 = 0xFF;

// "Directory: ADD_SRC, ADD_DST, REM, CON_CHILD, CON_PARENT, DES, PROC_CRT, PROC_PGT"
pub const D_ADD_SRC: u32 = 0;

pub const D_ADD_DST: u32 = 1;

pub const D_REM: u32 = 2;

pub const D_CON_CHILD: u32 = 3;

pub const D_CON_PARENT: u32 = 4;

pub const D_DES: u32 = 5;

pub const D_PROC_CRT: u32 = 6;

pub const D_PROC_PGT: u32 = 7;

pub const DIRECTORY_FLAGS: u32 = 0xFF;

// "Memory: CAPTBL, PGTBL, PROC, THD, SIG, INV"; no call of the base asks for THD or INV
pub const M_CAPTBL: u32 = 0;

pub const M_PGTBL: u32 = 1;

pub const M_PROC: u32 = 2;

pub const M_SIG: u32 = 4;

pub const MEMORY_FLAGS: u32 = 0x3F;

// "Process: CPT, PGT, THD"
pub const P_CPT: u32 = 0;

pub const P_PGT: u32 = 1;

pub const PROCESS_FLAGS: u32 = 0x07;

// "Endpoint: SND, RCV_BS, RCV_BM, RCV_NS, RCV_NM, SCHED". The flag of a receive's option 0..3 is the option's number behind RCV_BS.
pub const E_SND: u32 = 0;

pub const E_RCV_BS: u32 = 1;

pub const ENDPOINT_FLAGS: u32 = 0x3F;

// "a function has none"
pub const FUNCTION_FLAGS: u32 = 0;

// "Page: READ, WRITE, EXECUTE, CACHEABLE, BUFFERABLE, STATIC"
pub const PAGE_FLAGS: u32 = 0x3F;

pub const PAGE_FLAGS_U8: u8 = PAGE_FLAGS as u8;

pub const PAGE_FLAGS_END: u32 = PAGE_FLAGS + 1;
