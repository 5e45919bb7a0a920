// Rows of text with places for numbers. A row goes up to its line feed and has that too, or up to a bar, which is not put. One text of
// many rows and one number that picks among them are proved in a fraction of the time that a branch for each text takes.
#![tactic(auto)]

mod row_bytes;

use crate::row_bytes::Row;
use std::io::Result;

// The places: a number in decimal, an address in eight hexadecimal digits, flags in two.
const DECIMAL: u8 = b'#';

const ADDRESS: u8 = b'@';

const FLAGS: u8 = b'&';

const BAR: u8 = b'|';

// The numbers of a row's places, one after another; what a row has no place for is 0.
pub const NO_NUMBERS: [u64; 4] = [0; 4];

// The number where the byte is a place for one, nothing for a bar, else the byte.
fn put_filled(rt: &impl Print, row: &mut Row, byte: u8, n: u64) -> Result<()> {
    match byte {
        DECIMAL => row.put_decimal(rt, n),
        ADDRESS => row.put_hex(rt, n, 8),
        FLAGS => row.put_hex(rt, n, 2),
        BAR => Ok(()),
        _ => row.put_byte(rt, byte),
    }
}

// Prints row k, counted from 0. A place past the fourth has the fourth number.
pub fn say_row(rt: &impl Print, rows: &[u8], k: u32, numbers: [u64; 4]) -> Result<()> {
    let mut parts = rows.split_inclusive(|&b| matches!(b, b'\n' | BAR));
    let picked = parts.nth(k as usize).unwrap_or(&[]);
    let mut row = Row::new();
    // counted: only some bytes are places
    let mut place = 0;
    for &byte in picked {
        put_filled(rt, &mut row, byte, numbers[place])?;
        if matches!(byte, DECIMAL | ADDRESS | FLAGS) {
            place = (place + 1).min(3);
        }
    }
    row.flush(rt)
}

// Prints one row, or a part of one.
pub fn say_form(rt: &impl Print, form: &[u8], numbers: [u64; 4]) -> Result<()> {
    say_row(rt, form, 0, numbers)
}
