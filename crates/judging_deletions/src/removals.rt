// "Remove: RANGE, NULL, FROZEN, QUIE, REFCNT.", the last for "has children .. root to remove".
ghost use Rattle.std.specs.Prelude.{◌≡◌};
ghost use Rattle.state.specs.Read.{read};
ghost use Rattle.rules.specs.Places.{to_remove};

use crate::children::has_children;
use judging_places::ages::quiet;
use judging_places::places::frozen_at;
use words::actions::Spot;
use words::numbers::Slot;
use words::refusals::Refusal;

// Table and entry apart, as the rule has them (`to_remove st t e`).
pub fn to_remove(s: &[u8], t: Slot, e: u32) -> Result<Spot, Refusal>
    ensures { result ≡ to_remove (read s.now) t e }
{
    let c = frozen_at(s, t, e)?;
    quiet(s, c)?;
    let p = Spot { table: t, entry: e };
    if c.origin.is_none() {
        return Err(Refusal::CapRefcnt);
    }
    if has_children(s, p) {
        return Err(Refusal::CapRefcnt);
    }
    Ok(p)
}
