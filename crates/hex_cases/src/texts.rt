// The text of a case: the boot state's text in which some bytes have given way to others.
ghost use Rattle.std.specs.Prelude.{◌≤◌};
ghost use Rattle.hex_cases.specs.declared.texts.TheConstants.{CASE_LENGTH};

use crate::records::Case;
use digits::digit;
use intel_hex::marks::TEXT_LENGTH;
use lines::gather::LINE_LENGTH;

// No line spells more bytes than it has.
pub(crate) const CASE_LENGTH: usize = TEXT_LENGTH + LINE_LENGTH;

// A text as far as it is put together.
#[derive(Clone, Copy)]
pub struct Text {
    bytes: [u8; CASE_LENGTH],
    length: usize,
    ghost inside: { length ≤ CASE_LENGTH },
}

impl Text {
    fn put(&mut self, byte: u8) {
        if self.length < CASE_LENGTH {
            self.bytes[self.length] = byte;
            self.length += 1;
        }
    }

    // As one part: byte by byte, each would wait for the length that the one before it left in memory.
    fn put_all(&mut self, bytes: &[u8]) {
        let room = &mut self.bytes[self.length..];
        let n = bytes.len().min(room.len());
        room[..n].copy_from_slice(&bytes[..n]);
        self.length += n;
    }

    // The bytes that pairs of digits spell, the high digit first.
    fn put_pairs(&mut self, digits: &[u8]) {
        for pair in digits.chunks_exact(2) {
            if let [high, low] = pair {
                self.put(digit(*high) << 4 | digit(*low));
            }
        }
    }

    pub(crate) fn of(written: &[u8; TEXT_LENGTH], c: Case) -> Self {
        let mut text = Text {
            bytes: [0; CASE_LENGTH],
            length: 0,
        };
        text.put_all(&written[..c.from]);
        text.put_pairs(c.digits);
        text.put_all(&written[c.to..]);
        text
    }

    pub(crate) fn as_slice(&self) -> &[u8] {
        &self.bytes[..self.length]
    }
}
