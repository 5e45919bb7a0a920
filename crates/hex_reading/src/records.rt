// The bytes of a record, read where they are spelled: no record is copied.
ghost use Rattle.std.specs.Prelude.{true, false, ◌≡◌, ◌%◌, MatchOption, eqb, drop, get_or, length};
ghost use Rattle.intel_hex.specs.Lines.{body_of, readable};
ghost use Rattle.intel_hex.specs.Pairs.{all_hex, pairs};
ghost use Rattle.intel_hex.specs.Records.{address_in, length_fits, length_in, sum_of, type_in, upper_in, whole};

use crate::text_lines::{body, digits};
use digits::{HEX_BASE, digit};
use intel_hex::marks::{DATA_AT, DATA_TYPE, END_TYPE, FRAME_LENGTH, UPPER_LENGTH, UPPER_TYPE};

// Where a record has its length, the two bytes of its address and its type.
const LENGTH_AT: usize = 0;

const ADDRESS_AT: usize = 1;

const TYPE_AT: usize = 3;

// What stands behind the colon of a line: digits in pairs, a byte each.
#[derive(Clone, Copy)]
pub(crate) struct Record<'a> {
    digits: &'a [u8],
    ghost hex: { all_hex digits.now ≡ true },
    ghost paired: { length digits.now % 2 ≡ 0 },
}

// The type is the byte that the record has: length_fits and record_step of the rules ask for its number, and so do the two matches on it.
fn length_fits(t: u8, n: usize) -> bool
    ensures { result ≡ length_fits t n }
{
    match t {
        DATA_TYPE => 1 <= n,
        END_TYPE => n == 0,
        UPPER_TYPE => n == UPPER_LENGTH,
        _ => false,
    }
}

impl<'a> Record<'a> {
    // The record of a line. None where the line has no end, no colon, no digits in pairs, or not as many bytes as its length and its type say.
    pub(crate) fn of_line(line: &'a [u8]) -> Option<Record<'a>>
        ensures { MatchOption result (readable line.now ≡ false) (λ r. (readable line.now ≡ true) × (r.digits.now ≡ drop 1 (body_of line.now))) }
    {
        let digits = digits(body(line)?)?;
        let record = Record { digits };
        if record.is_whole() {
            Some(record)
        } else {
            None
        }
    }

    // Byte k; 0 past the end, as length_in and type_in of the rules have it of a record that is cut short.
    pub(crate) fn byte(&self, k: usize) -> u8
        ensures { result ≡ get_or (pairs self.now.digits.now) k 0 }
    {
        if self.digits.len() / 2 <= k {
            return 0;
        }
        HEX_BASE * digit(self.digits[2 * k]) + digit(self.digits[2 * k + 1])
    }

    pub(crate) fn length(&self) -> u8
        ensures { result ≡ length_in (pairs self.now.digits.now) }
    {
        self.byte(LENGTH_AT)
    }

    pub(crate) fn address(&self) -> u16
        ensures { result ≡ address_in (pairs self.now.digits.now) }
    {
        u16::from_be_bytes([self.byte(ADDRESS_AT), self.byte(ADDRESS_AT + 1)])
    }

    // Of an address record.
    pub(crate) fn upper(&self) -> u16
        ensures { result ≡ upper_in (pairs self.now.digits.now) }
    {
        u16::from_be_bytes([self.byte(DATA_AT), self.byte(DATA_AT + 1)])
    }

    pub(crate) fn record_type(&self) -> u8
        ensures { result ≡ type_in (pairs self.now.digits.now) }
    {
        self.byte(TYPE_AT)
    }

    // As many bytes as the length says, and a type that takes them.
    fn is_whole(&self) -> bool
        ensures { result ≡ whole (pairs self.now.digits.now) }
    {
        let n = usize::from(self.length());
        self.digits.len() / 2 == n + FRAME_LENGTH && length_fits(self.record_type(), n)
    }

    pub(crate) fn is_balanced(&self) -> bool
        ensures { result ≡ eqb (sum_of (pairs self.now.digits.now) % 256) 0 }
    {
        let mut sum: u8 = 0;
        // by number: two digits are a byte, and `byte` reads them
        for k in 0..self.digits.len() / 2 {
            sum = sum.wrapping_add(self.byte(k));
        }
        sum == 0
    }
}
