// A state as the firmware loader takes it: Intel HEX, first byte at 0x20000000.
ghost use Rattle.std.specs.Prelude.{◌≡◌};
ghost use Rattle.intel_hex.specs.Outcomes.{read_outcome, write_outcome};
ghost use Rattle.intel_hex.specs.Reading.{taken_of};

use hex_reading::{lines_taken, read_hex};
use hex_writing::write_hex;

// Reads a text into the state. −19: the state is of another length, and at the end what was read is not well formed. −30 to −33: the
// text's first faulty line. A refusal changes nothing.
pub fn kernel_read_hex(text: &[u8], s: &mut [u8]) -> i32
    ensures { (record { reply = result; buffer = s.new }) ≡ read_outcome text.now s.old }
{
    read_hex(text, s)
}

// How many lines of a text are taken before its first faulty one. Where reading refuses with −30 to −33, the next line is at fault.
pub fn kernel_hex_lines(text: &[u8]) -> usize
    ensures { result ≡ taken_of text.now }
{
    lines_taken(text)
}

// Writes the state's text into the first 48,076 of the lent bytes; what is behind them stays. −19: no well-formed state. −34: fewer are
// lent. A refusal changes nothing.
pub fn kernel_write_hex(s: &[u8], text: &mut [u8]) -> i32
    ensures { (record { reply = result; text = text.new }) ≡ write_outcome s.now text.old }
{
    write_hex(s, text)
}
