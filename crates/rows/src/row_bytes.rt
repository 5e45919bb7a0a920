// The bytes of a row, put together in a buffer and written at once: a call to the system for each word of text would cost more than the
// kernel does.
ghost use Rattle.std.specs.Prelude.{◌≤◌};
ghost use Rattle.rows.specs.declared.row_bytes.TheConstants.{ROW_LENGTH};

use std::io::Result;

// Every row is shorter; a longer one would be written in pieces.
const ROW_LENGTH: usize = 256;

// What waits to be written: the first `used` of the bytes.
#[derive(Drop)]
pub(crate) struct Row {
    bytes: [u8; ROW_LENGTH],
    used: usize,
    ghost within: { used ≤ ROW_LENGTH },
}

impl Row {
    pub(crate) fn new() -> Self {
        Row {
            bytes: [0; ROW_LENGTH],
            used: 0,
        }
    }

    pub(crate) fn put_byte(&mut self, rt: &impl Print, byte: u8) -> Result<()> {
        if self.used < ROW_LENGTH {
            self.bytes[self.used] = byte;
            self.used += 1;
            return Ok(());
        }
        self.flush(rt)?;
        self.bytes[0] = byte;
        self.used = 1;
        Ok(())
    }

    fn put(&mut self, rt: &impl Print, text: &[u8]) -> Result<()> {
        for &byte in text {
            self.put_byte(rt, byte)?;
        }
        Ok(())
    }

    pub(crate) fn put_decimal(&mut self, rt: &impl Print, n: u64) -> Result<()> {
        let mut text = [0; 20];
        let k = io::decimal(n, &mut text);
        self.put(rt, &text[..k])
    }

    // Hexadecimal of at least so many digits.
    pub(crate) fn put_hex(&mut self, rt: &impl Print, n: u64, digits: usize) -> Result<()> {
        let mut text = [0; 16];
        let k = io::hex(n, digits, &mut text);
        self.put(rt, &text[..k])
    }

    // Writes what waits; nothing waits after it.
    pub(crate) fn flush(&mut self, rt: &impl Print) -> Result<()> {
        rt.write_all(&self.bytes[..self.used])?;
        self.used = 0;
        Ok(())
    }
}
