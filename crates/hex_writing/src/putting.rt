// The text of a state: the address record, 1,092 data records of 16 bytes in rising order, the end record.
ghost use Rattle.std.specs.Prelude.{true, false, [], ◌∷◌, ◌++◌, ◌≡◌, ◌+◌, ◌*◌, ◌/◌, ◌%◌, ◌<◌, ◌≤◌, drop, length};
ghost use Rattle.words.specs.Sizes.{state_length};
ghost use Rattle.state.specs.State.{splice};
ghost use Rattle.intel_hex.specs.Pairs.{spelled};
ghost use Rattle.intel_hex.specs.Marks.{end_line, piece_count, text_length, upper_line};
ghost use Rattle.intel_hex.specs.Records.{fields, record_of, sum_byte, sum_of};
ghost use Rattle.intel_hex.specs.Writing.{data_lines, line_of, sixteens, written};

use digits::{HEX_BASE, digit_for};
use intel_hex::marks::{
    DATA_AT, DATA_TYPE, END_TYPE, FRAME_LENGTH, STATE_UPPER, TEXT_LENGTH, UPPER_LENGTH, UPPER_TYPE,
};
use words::sizes::STATE_LENGTH;

// "data records of 16 bytes": how many bytes a record has, and how many records a state.
const PIECE_LENGTH: usize = 16;

const PIECE_COUNT: usize = STATE_LENGTH / PIECE_LENGTH;

// Where a line has its record's first byte and its data, behind the colon, two digits for each byte.
const HEAD_PLACE: usize = 1;

const DATA_PLACE: usize = HEAD_PLACE + 2 * DATA_AT;

// The characters of a line with its line feed: a record without data, the address record, a data record.
const END_LINE: usize = HEAD_PLACE + 2 * FRAME_LENGTH + 1;

const UPPER_LINE: usize = END_LINE + 2 * UPPER_LENGTH;

const DATA_LINE: usize = END_LINE + 2 * PIECE_LENGTH;

// Where the end record begins.
const END_AT: usize = TEXT_LENGTH - END_LINE;

// A record as it is to be spelled. A length byte says how many bytes of data it has.
#[derive(Clone, Copy)]
struct Record<'a> {
    record_type: u8,
    address: u16,
    bytes: &'a [u8],
    ghost short: { length bytes.now < 256 },
}

// Two digits.
fn put_byte(part: &mut [u8], at: usize, b: u8)
    requires { at + 2 ≤ length part.old }
    ensures { part.new ≡ splice at (spelled true (b ∷ [])) part.old }
{
    part[at] = digit_for(b / HEX_BASE);
    part[at + 1] = digit_for(b % HEX_BASE);
}

fn put_bytes(part: &mut [u8], at: usize, bytes: &[u8])
    requires { at + 2 * length bytes.now ≤ length part.old }
    ensures { part.new ≡ splice at (spelled true bytes.now) part.old }
{
    for (i, b) in bytes.iter().enumerate() {
        put_byte(part, at + 2 * i, *b);
    }
}

// Modulo 256.
fn sum_of(bytes: &[u8]) -> u8
    ensures { result ≡ sum_of bytes.now % 256 }
{
    let mut sum: u8 = 0;
    for b in bytes {
        sum = sum.wrapping_add(*b);
    }
    sum
}

impl Record<'_> {
    // The bytes in front of the data.
    fn head(&self) -> [u8; DATA_AT]
        ensures { result ≡ length self.now.bytes.now ∷ self.now.address / 256 ∷ self.now.address % 256 ∷ self.now.record_type ∷ [] }
    {
        let [high, low] = self.address.to_be_bytes();
        [self.bytes.len() as u8, high, low, self.record_type]
    }

    // The byte that brings the sum to a multiple of 256.
    fn check_byte(&self) -> u8
        ensures { result ≡ sum_byte (fields self.now.record_type self.now.address self.now.bytes.now) }
    {
        let head = self.head();
        sum_of(&head)
            .wrapping_add(sum_of(self.bytes))
            .wrapping_neg()
    }

    // The part of the text that is the record's line.
    #[inline(always)]
    fn put(&self, part: &mut [u8])
        requires { length part.old ≡ end_line + 2 * length self.now.bytes.now }
        ensures { part.new ≡ line_of true false (record_of self.now.record_type self.now.address self.now.bytes.now) }
    {
        let check = self.check_byte();
        let behind = DATA_PLACE + 2 * self.bytes.len();
        part[0] = b':';
        put_bytes(part, HEAD_PLACE, &self.head());
        put_bytes(part, DATA_PLACE, self.bytes);
        put_byte(part, behind, check);
        part[behind + 2] = b'\n';
    }

    // The same at a place of the text: its part is lent on. Inlined, so that the loops of a data record are compiled for its 16 bytes.
    #[inline(always)]
    fn put_at(&self, text: &mut [u8], at: usize)
        requires { at + end_line + 2 * length self.now.bytes.now ≤ length text.old }
        ensures { text.new ≡ splice at (line_of true false (record_of self.now.record_type self.now.address self.now.bytes.now)) text.old }
    {
        let end = at + (END_LINE + 2 * self.bytes.len());
        self.put(&mut text[at..end]);
    }
}

// The data records, behind the address record.
fn put_data(s: &[u8], text: &mut [u8])
    requires { (length s.now ≡ state_length) × (text_length ≤ length text.old) }
    ensures { text.new ≡ splice upper_line (data_lines true false 0 (sixteens piece_count s.now)) text.old }
{
    for k in 0..PIECE_COUNT {
        let from = PIECE_LENGTH * k;
        let piece = Record {
            record_type: DATA_TYPE,
            address: from as u16,
            bytes: &s[from..from + PIECE_LENGTH],
        };
        piece.put_at(text, UPPER_LINE + DATA_LINE * k);
    }
}

pub(crate) fn write_text(s: &[u8], text: &mut [u8])
    requires { (length s.now ≡ state_length) × (text_length ≤ length text.old) }
    ensures { text.new ≡ written s.now ++ drop text_length text.old }
{
    let upper = Record {
        record_type: UPPER_TYPE,
        address: 0,
        bytes: &STATE_UPPER.to_be_bytes(),
    };
    upper.put_at(text, 0);
    put_data(s, text);
    let end = Record {
        record_type: END_TYPE,
        address: 0,
        bytes: &[],
    };
    end.put_at(text, END_AT);
}
