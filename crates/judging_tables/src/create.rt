// 1 create table: C table CRT; P1.D1 memory CAPTBL; P1.D0 place; P3 entries; P2 address. −1 for "entries not 1..64".
ghost use Rattle.std.specs.Prelude.{true, ◌≡◌, leb};
ghost use Rattle.words.specs.Sizes.{most_entries};
ghost use Rattle.words.specs.Tests.{◌&◌};
ghost use Rattle.state.specs.Read.{read};
ghost use Rattle.rules.specs.Calls.{create_table};
ghost use Rattle.rules.specs.WellFormed.{wf};

use judging_numbers::arguments::{memory_arg, table_arg};
use judging_places::addresses::address_arg;
use judging_places::places::to_fill;
use words::actions::Action;
use words::fields::{Words, address_in_word, count_in_word, d0, number_in_c, number_in_d1};
use words::flag_bits::{M_CAPTBL, T_CRT};
use words::numbers::{Count, Slot};
use words::refusals::Refusal;
use words::sizes::{ENTRY_SIZE_U32, MOST_ENTRIES, slots_for};

// "table of 1..64 entries": two comparisons, which the check makes of a table that stands.
fn entries_ok(n: Count) -> bool
    ensures { result ≡ (leb 1 n.0 & leb n.0 most_entries) }
{
    if n.0 < 1 {
        return false;
    }
    n.0 <= MOST_ENTRIES
}

// The state is well formed, so that an address in the memory right has a slot.
pub fn judge_create_table(s: &[u8], t: Slot, w: Words) -> Result<Action, Refusal>
    requires { wf (read s.now) ≡ true }
    ensures { result ≡ create_table (read s.now) t w }
{
    let c = table_arg(s, t, number_in_c(w), T_CRT)?;
    let m = memory_arg(s, t, number_in_d1(w.p1), M_CAPTBL)?;
    let p = to_fill(s, c, d0(w.p1))?;
    let n = count_in_word(w.p3);
    if !entries_ok(n) {
        return Err(Refusal::CapRange);
    }
    let entries = n.0;
    let needed = slots_for(ENTRY_SIZE_U32 * entries);
    let first = address_arg(s, m, address_in_word(w.p2), needed)?;
    Ok(Action::CreateTable {
        at: p,
        first,
        entries,
    })
}
