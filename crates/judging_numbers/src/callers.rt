// −18: "caller is not a live process's slot". What a live process's slot gives is the caller's table.
ghost use Rattle.std.specs.Prelude.{◌≡◌};
ghost use Rattle.words.specs.Fields.{slot};
ghost use Rattle.state.specs.Read.{read};
ghost use Rattle.state.specs.State.{obj_at};
ghost use Rattle.rules.specs.Calls.{caller_table};
ghost use Rattle.judging_numbers.specs.Callers.{caller_slot};

use reading::notes::tag_at;
use reading::processes::table_named;
use words::layout::PROCESS_TAG;
use words::numbers::Slot;
use words::refusals::Refusal;
use words::sizes::SLOT_COUNT_U32;

// A caller is any word; it is a slot once it is known to be one.
fn caller_slot(caller: u32) -> Result<Slot, Refusal>
    ensures { result ≡ caller_slot caller }
{
    if SLOT_COUNT_U32 <= caller {
        return Err(Refusal::BadCaller);
    }
    Ok(Slot(caller as u8))
}

fn table_of_caller(s: &[u8], k: Slot) -> Result<Slot, Refusal>
    ensures { result ≡ caller_table (obj_at (read s.now) k) }
{
    if tag_at(s, k) != PROCESS_TAG {
        return Err(Refusal::BadCaller);
    }
    Ok(table_named(s, k))
}

// Past the last slot nothing stands.
pub fn caller_table(s: &[u8], caller: u32) -> Result<Slot, Refusal>
    ensures { result ≡ caller_table (obj_at (read s.now) (slot caller)) }
{
    let k = caller_slot(caller)?;
    table_of_caller(s, k)
}
