// QUIE, "frozen for fewer than 8 ticks". "Age = (clock − stamp) mod 2^32": a wrapping subtraction gives it.
ghost use Rattle.std.specs.Prelude.{◌≡◌};
ghost use Rattle.words.specs.Rights.{stamp_of};
ghost use Rattle.state.specs.Read.{read};
ghost use Rattle.rules.specs.Places;

use reading::clock::clock;
use words::capabilities::{Capability, Frost, stamp_of};
use words::refusals::Refusal;
use words::sizes::QUIET_TICKS;

#[tactic(auto, unfolding(rules::specs::Places::age))]
fn age(s: &[u8], f: Frost) -> u32
    ensures { result ≡ Places.age (read s.now) f }
{
    clock(s).wrapping_sub(stamp_of(f))
}

pub fn quiet(s: &[u8], c: Capability) -> Result<(), Refusal>
    ensures { result ≡ Places.quiet (read s.now) c }
{
    if age(s, c.frost) < QUIET_TICKS {
        return Err(Refusal::CapQuie);
    }
    Ok(())
}
