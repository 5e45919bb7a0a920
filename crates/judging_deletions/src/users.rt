// REFCNT, "users": "processes that name its object", searched in every slot, left at the first one found.
ghost use Rattle.std.specs.Prelude.{◌≡◌};
ghost use Rattle.state.specs.Read.{read};
ghost use Rattle.state.specs.State.{obj_at};
ghost use Rattle.rules.specs.Places.{has_users, is_user_of};

use crate::children::slot_numbered;
use reading::notes::tag_at;
use reading::processes::{directory_named, table_named};
use words::layout::PROCESS_TAG;
use words::numbers::Slot;
use words::sizes::SLOT_COUNT_U32;

fn is_user(s: &[u8], k: Slot, o: Slot) -> bool
    ensures { result ≡ is_user_of o (obj_at (read s.now) k) }
{
    if tag_at(s, k) != PROCESS_TAG {
        return false;
    }
    if table_named(s, k) == o {
        return true;
    }
    directory_named(s, k) == o
}

// Labelled loops, left at the first one found: document 01 names the form for this search.
pub(crate) fn has_users(s: &[u8], o: Slot) -> bool
    ensures { result ≡ has_users (read s.now) o }
{
    let mut found = false;
    'search: for k in 0..SLOT_COUNT_U32 {
        if is_user(s, slot_numbered(k), o) {
            found = true;
            break 'search;
        }
    }
    found
}
