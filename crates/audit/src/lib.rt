// The check of a state: whether a buffer holds a well-formed one. It asks nothing of the buffer; each part of it asks for what
// the parts before it have shown, by clauses: a type that carries the state with the list of heads and these facts would be built here alone.
#![tactic(auto)]

ghost use Rattle.std.specs.Prelude.{◌≡◌};
ghost use Rattle.rules.specs.Buffer.{sound};

use audit_bytes::canonical::canonical;
use audit_chains::chains_ok;
use audit_entries::heads::list_heads;
use audit_entries::used::used;
use audit_layout::layout::laid_out;
use audit_objects::objects::objects_ok;
use audit_rights::rights::rights_ok;
use audit_roots::roots_ok;
use words::sizes::{SLOT_COUNT, STATE_LENGTH};

pub fn well_formed(s: &[u8]) -> bool
    ensures { result ≡ sound s.now }
{
    if s.len() != STATE_LENGTH {
        return false;
    }
    let n = used(s);
    if !laid_out(s, n) || !canonical(s, n) {
        return false;
    }
    let mut heads = [0u8; SLOT_COUNT];
    let m = list_heads(s, n, &mut heads);
    let heads = &heads[..m];
    objects_ok(s, heads) && rights_ok(s, heads) && roots_ok(s, heads) && chains_ok(s, heads)
}
