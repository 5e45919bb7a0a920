// A state written as Intel HEX: one text for each state.
#![tactic(auto)]

ghost use Rattle.std.specs.Prelude.{◌≡◌};
ghost use Rattle.intel_hex.specs.Outcomes.{write_outcome};

mod putting;

use crate::putting::write_text;
use audit::well_formed;
use intel_hex::marks::TEXT_LENGTH;
use words::refusals::{Refusal, refusal_number};

// "−34 output under 48,076 bytes"
const NO_ROOM: i32 = -34;

// "Writing: −19, then −34 output under 48,076 bytes; bytes past these stay."
// The answer is the number that C sees: each of the two refusals ends the call at once, so a Result would be made only to be taken apart here.
pub fn write_hex(s: &[u8], text: &mut [u8]) -> i32
    ensures { (record { reply = result; text = text.new }) ≡ write_outcome s.now text.old }
{
    if !well_formed(s) {
        return refusal_number(Refusal::BadState);
    }
    if text.len() < TEXT_LENGTH {
        return NO_ROOM;
    }
    write_text(s, text);
    0
}
