// "A capability number v below 128 is an entry of the caller's table. If 128 ≤ v < 32768 and bit 7 is set, entry v/256 must be a
// table, and v mod 128 is the entry in it. Anything else is out of range."
ghost use Rattle.std.specs.Prelude.{◌≡◌, ◌<◌};
ghost use Rattle.words.specs.Rights.{has};
ghost use Rattle.state.specs.Read.{read};
ghost use Rattle.rules.specs.Numbers.{lookup, right_at, two_step};

use crate::kinds::as_table;
use reading::tables::{entries_in, place_at};
use words::capabilities::{Capability, place_thawed};
use words::numbers::{
    CapabilityNumber, MIDDLE_UNIT, ONE_STEP_END, Slot, TWO_STEP_BIT, TWO_STEP_END,
};
use words::refusals::Refusal;

// Bit i of x is set. The bit is a number and no type with its bound: a receive adds its option to one.
pub fn has_flag(x: u32, i: u32) -> bool
    requires { i < 32 }
    ensures { result ≡ has x i }
{
    (x >> i) % 2 == 1
}

// One step: RANGE, FROZEN, then TYPE for "blank where a kind is needed".
fn right_at(s: &[u8], t: Slot, e: u32) -> Result<Capability, Refusal>
    ensures { result ≡ right_at (read s.now) t e }
{
    if entries_in(s, t) <= e {
        return Err(Refusal::CapRange);
    }
    let p = place_at(s, t, e);
    if !place_thawed(p) {
        return Err(Refusal::CapFrozen);
    }
    let Some(c) = p else {
        return Err(Refusal::CapType);
    };
    Ok(c)
}

// Two steps, each with the form that document 01 names, `let .. else` on what was found: the middle table is used like any other right, so that a frozen one is refused.
fn two_step(s: &[u8], t: Slot, v: CapabilityNumber) -> Result<Capability, Refusal>
    ensures { result ≡ two_step (read s.now) t v.0 }
{
    let n = v.0;
    if TWO_STEP_END <= n || !has_flag(n, TWO_STEP_BIT) {
        return Err(Refusal::CapRange);
    }
    let found = right_at(s, t, n / MIDDLE_UNIT);
    let Ok(middle) = found else {
        return found;
    };
    let table = as_table(middle.kind)?;
    right_at(s, table, n % ONE_STEP_END)
}

pub fn look_up(s: &[u8], t: Slot, v: CapabilityNumber) -> Result<Capability, Refusal>
    ensures { result ≡ lookup (read s.now) t v }
{
    if v.0 < ONE_STEP_END {
        return right_at(s, t, v.0);
    }
    two_step(s, t, v)
}
