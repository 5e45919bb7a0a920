// A place to fill, and a place whose right is used: RANGE first, then what the use asks. Table and entry stand apart and in no `Spot`, as each
// rule has them (`to_fill st t e`); a `Spot` is a place that a rule has found.
ghost use Rattle.std.specs.Prelude.{◌≡◌};
ghost use Rattle.state.specs.Read.{read};
ghost use Rattle.rules.specs.Places.{frozen_at, thawed_at, to_fill, used_at};

use reading::tables::{entries_in, place_at};
use words::actions::Spot;
use words::capabilities::{Capability, is_thawed, place_thawed};
use words::numbers::Slot;
use words::refusals::Refusal;

// "A place to fill: RANGE, FROZEN, EXIST."
pub fn to_fill(s: &[u8], t: Slot, e: u32) -> Result<Spot, Refusal>
    ensures { result ≡ to_fill (read s.now) t e }
{
    if entries_in(s, t) <= e {
        return Err(Refusal::CapRange);
    }
    let p = place_at(s, t, e);
    if !place_thawed(p) {
        return Err(Refusal::CapFrozen);
    }
    if p.is_some() {
        return Err(Refusal::CapExist);
    }
    Ok(Spot { table: t, entry: e })
}

// RANGE, NULL.
fn used_at(s: &[u8], t: Slot, e: u32) -> Result<Capability, Refusal>
    ensures { result ≡ used_at (read s.now) t e }
{
    if entries_in(s, t) <= e {
        return Err(Refusal::CapRange);
    }
    place_at(s, t, e).ok_or(Refusal::CapNull)
}

// "Delegation's source place: RANGE, NULL, FROZEN." "Freeze: RANGE, NULL, FROZEN."
pub fn thawed_at(s: &[u8], t: Slot, e: u32) -> Result<Capability, Refusal>
    ensures { result ≡ thawed_at (read s.now) t e }
{
    let c = used_at(s, t, e)?;
    if !is_thawed(c.frost) {
        return Err(Refusal::CapFrozen);
    }
    Ok(c)
}

// RANGE, NULL, FROZEN, where the last is given for what is "not frozen": how a deletion and a removal begin. It and `thawed_at` are a rule each.
pub fn frozen_at(s: &[u8], t: Slot, e: u32) -> Result<Capability, Refusal>
    ensures { result ≡ frozen_at (read s.now) t e }
{
    let c = used_at(s, t, e)?;
    if is_thawed(c.frost) {
        return Err(Refusal::CapFrozen);
    }
    Ok(c)
}
