// Four kinds of number, a type each, so that none can be passed for another:
// "capability numbers, kernel addresses and counts stay apart".

// A slot of kernel memory, 0..255. An object is named by its first slot.
#[derive(Clone, Copy, PartialEq, Eq)]
pub struct Slot(pub u8);

// The number by which a call names a capability, in one step or in two.
#[derive(Clone, Copy)]
pub struct CapabilityNumber(pub u32);

// "A capability number v below 128 is an entry of the caller's table. If 128 ≤ v < 32768 and bit 7 is set, entry v/256 must be a
// table, and v mod 128 is the entry in it."
pub const ONE_STEP_END: u32 = 128;

pub const TWO_STEP_END: u32 = 32768;

pub const TWO_STEP_BIT: u32 = 7;

pub const MIDDLE_UNIT: u32 = 256;

#[derive(Clone, Copy)]
pub struct KernelAddress(pub u32);

// How many: the signals at an endpoint, the entries asked for.
#[derive(Clone, Copy)]
pub struct Count(pub u32);
