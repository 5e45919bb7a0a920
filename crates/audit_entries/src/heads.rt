// The first slots of what stands in kernel memory. Most slots are free, or an object goes on in them: the later parts of the
// check walk this list and not the slots.
ghost use Rattle.std.specs.Prelude.{◌≡◌, length};
ghost use Rattle.audit_entries.specs.Heads.{Listed};
ghost use Rattle.audit_entries.specs.Vacant.{Vacant};
ghost use Rattle.words.specs.Sizes.{slot_count};

use reading::notes::tag_byte;
use words::layout::LATER_TAG;
use words::numbers::Slot;
use words::sizes::SLOT_COUNT;

// Puts them at the start of the list, in order, and answers how many there are; what is behind them stays. There is none behind the
// n slots that are used. Fixed memory without a heap, so the caller lends the whole array: `Listed` says of all of it what it has then.
pub fn list_heads(s: &[u8], n: usize, heads: &mut [u8; SLOT_COUNT]) -> usize
    requires { Vacant s.now n × (length heads.old ≡ slot_count) }
    ensures { Listed s.now heads.old heads.new result }
{
    let mut m: usize = 0;
    for k in 0..n {
        if LATER_TAG < tag_byte(s, Slot(k as u8)) {
            heads[m] = k as u8;
            m += 1;
        }
    }
    m
}
