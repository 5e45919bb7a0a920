// "Four words: N:C (N is the high half), P1, P2, P3. D1 is a word's high half, D0 its low half; Q1 and Q0 are the high and
// low byte of P1.D0. N[5:0] is the call number." What a field names has the type of what it names.
ghost use Rattle.std.specs.Prelude.{◌≡◌};
ghost use Rattle.words.specs.Fields.{D1, D0, C, Q1, Q0, call_number, number_order, capability_number, address, count};

use crate::numbers::{CapabilityNumber, Count, KernelAddress};

// How many numbers a half, a byte, three bytes and the call number's six bits have: what a word is divided by to take a part of it, and what
// its higher bytes count for.
pub const HALF: u32 = 0x10000;

pub const BYTE: u32 = 0x100;

pub const CALL_NUMBERS: u32 = 64;

// The words of a call; nc is N:C.
#[derive(Clone, Copy)]
pub struct Words {
    pub nc: u32,
    pub p1: u32,
    pub p2: u32,
    pub p3: u32,
}

pub fn d1(x: u32) -> u32
    ensures { result ≡ D1 x }
{
    x / HALF
}

pub fn d0(x: u32) -> u32
    ensures { result ≡ D0 x }
{
    x % HALF
}

// N[5:0]
pub fn call_number(w: Words) -> u32
    ensures { result ≡ call_number w }
{
    w.nc / HALF % CALL_NUMBERS
}

// N[15:8]
pub fn number_order(w: Words) -> u32
    ensures { result ≡ number_order w }
{
    w.nc / HALF / BYTE
}

pub fn q1(w: Words) -> u32
    ensures { result ≡ Q1 w }
{
    w.p1 % HALF / BYTE
}

pub fn q0(w: Words) -> u32
    ensures { result ≡ Q0 w }
{
    w.p1 % BYTE
}

// A capability number in C, in a word's high half, in its low half, and in a whole word; then a whole word as an address and as a count. No
// `From<u32>`: a conversion that any number takes would let one be passed for another ("stay apart"), and would not say which half is meant.
pub fn number_in_c(w: Words) -> CapabilityNumber
    ensures { result ≡ capability_number (C w) }
{
    CapabilityNumber(w.nc % HALF)
}

pub fn number_in_d1(x: u32) -> CapabilityNumber
    ensures { result ≡ capability_number (D1 x) }
{
    CapabilityNumber(x / HALF)
}

pub fn number_in_d0(x: u32) -> CapabilityNumber
    ensures { result ≡ capability_number (D0 x) }
{
    CapabilityNumber(x % HALF)
}

pub fn number_in_word(x: u32) -> CapabilityNumber
    ensures { result ≡ capability_number x }
{
    CapabilityNumber(x)
}

pub fn address_in_word(x: u32) -> KernelAddress
    ensures { result ≡ address x }
{
    KernelAddress(x)
}

pub fn count_in_word(x: u32) -> Count
    ensures { result ≡ count x }
{
    Count(x)
}
