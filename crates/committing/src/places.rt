// The actions that write one place: a delegation fills it, a freeze marks what it holds, a removal blanks it.
ghost use Rattle.std.specs.Prelude.{true, ◌≡◌};
ghost use Rattle.words.specs.declared.actions.Action.TheVariants.{Fill, Freeze, Remove};
ghost use Rattle.state.specs.Bytes.{bytes};
ghost use Rattle.state.specs.Read.{read};
ghost use Rattle.rules.specs.Buffer.{sound};
ghost use Rattle.rules.specs.Commit.{commit, froze};
ghost use Rattle.committing.specs.Ready.{Ready};

use reading::clock::clock;
use reading::tables::place_at;
use words::actions::Spot;
use words::capabilities::{Capability, Frost, Place};
use writing::tables::store_place;

pub(crate) fn commit_fill(s: &mut [u8], at: Spot, right: Capability)
    requires well_formed { sound s.old ≡ true }
    requires ready { Ready (read s.old) (Fill at right) }
    ensures { s.new ≡ bytes (commit (read s.old) (Fill at right)) }
{
    store_place(s, at.table, at.entry, Some(right));
}

// "a frozen mark with its stamp"
fn frozen(p: Place, stamp: u32) -> Place
    ensures { result ≡ froze stamp p }
{
    p.map(|c| Capability {
        frost: Frost::Frozen(stamp),
        ..c
    })
}

// The stamp is the clock.
pub(crate) fn commit_freeze(s: &mut [u8], at: Spot)
    requires well_formed { sound s.old ≡ true }
    requires ready { Ready (read s.old) (Freeze at) }
    ensures { s.new ≡ bytes (commit (read s.old) (Freeze at)) }
{
    let p = frozen(place_at(s, at.table, at.entry), clock(s));
    store_place(s, at.table, at.entry, p);
}

pub(crate) fn commit_remove(s: &mut [u8], at: Spot)
    requires well_formed { sound s.old ≡ true }
    requires ready { Ready (read s.old) (Remove at) }
    ensures { s.new ≡ bytes (commit (read s.old) (Remove at)) }
{
    store_place(s, at.table, at.entry, None);
}
