// "A place to delete: RANGE, NULL, FROZEN, TYPE, QUIE, REFCNT": the object of the root there. One function for each kind that can be
// deleted; all but TYPE is the same for all.
ghost use Rattle.std.specs.Prelude.{◌≡◌};
ghost use Rattle.words.specs.declared.capabilities.Kind.{Kind};
ghost use Rattle.words.specs.declared.numbers.Slot.{Slot};
ghost use Rattle.words.specs.Try.{Try};
ghost use Rattle.state.specs.Read.{read};
ghost use Rattle.rules.specs.Calls.{as_directory_object};
ghost use Rattle.rules.specs.Numbers.{as_endpoint, as_process, as_table};
ghost use Rattle.rules.specs.Places.{to_delete};
ghost use Rattle.judging_deletions.specs.Deletions.{after_type};

use crate::children::has_children;
use crate::users::has_users;
use judging_numbers::kinds::{as_directory_object, as_endpoint, as_process, as_table};
use judging_places::ages::quiet;
use judging_places::places::frozen_at;
use words::actions::Spot;
use words::capabilities::{Capability, Kind};
use words::numbers::Slot;
use words::refusals::Refusal;

// QUIE, then REFCNT: "has children or users; .. child to delete".
fn after_type(s: &[u8], p: Spot, c: Capability, o: Slot) -> Result<Slot, Refusal>
    ensures { result ≡ after_type (read s.now) p c o }
{
    quiet(s, c)?;
    if c.origin.is_some() {
        return Err(Refusal::CapRefcnt);
    }
    if has_children(s, p) {
        return Err(Refusal::CapRefcnt);
    }
    if has_users(s, o) {
        return Err(Refusal::CapRefcnt);
    }
    Ok(o)
}

// `kind` makes of a right's kind the object, or refuses it: TYPE. Table and entry apart, as the rule has them (`to_delete kind st t e`).
fn to_delete<F: FnOnce(Kind) -> Result<Slot, Refusal>>(
    s: &[u8],
    t: Slot,
    e: u32,
    kind: F,
) -> Result<Slot, Refusal>
    requires { F.IsAlwaysCallable kind }
    ensures { (rule : Kind → Try Slot) → ((k : Kind) (r : Try Slot) → F.post kind k r → r ≡ rule k) → result ≡ to_delete rule (read s.now) t e }
{
    let c = frozen_at(s, t, e)?;
    let object = kind(c.kind)?;
    after_type(s, Spot { table: t, entry: e }, c, object)
}

pub fn table_to_delete(s: &[u8], t: Slot, e: u32) -> Result<Slot, Refusal>
    ensures { result ≡ to_delete as_table (read s.now) t e }
{
    to_delete(s, t, e, as_table)
}

pub fn directory_to_delete(s: &[u8], t: Slot, e: u32) -> Result<Slot, Refusal>
    ensures { result ≡ to_delete as_directory_object (read s.now) t e }
{
    to_delete(s, t, e, as_directory_object)
}

pub fn process_to_delete(s: &[u8], t: Slot, e: u32) -> Result<Slot, Refusal>
    ensures { result ≡ to_delete as_process (read s.now) t e }
{
    to_delete(s, t, e, as_process)
}

pub fn endpoint_to_delete(s: &[u8], t: Slot, e: u32) -> Result<Slot, Refusal>
    ensures { result ≡ to_delete as_endpoint (read s.now) t e }
{
    to_delete(s, t, e, as_endpoint)
}
