// The notes: tag and argument, and an argument only where the object has one.
ghost use Rattle.std.specs.Prelude.{◌≡◌, length};
ghost use Rattle.audit_bytes.specs.Clean.{note_clean};
ghost use Rattle.audit_bytes.specs.Stands.{note_stands};
ghost use Rattle.audit_entries.specs.Vacant.{Vacant};
ghost use Rattle.words.specs.Fields.{slot};
ghost use Rattle.words.specs.Sizes.{slot_count, state_length};
ghost use Rattle.words.specs.Tests.{all_below};

use audit_entries::word_in;
use words::fields::{BYTE, HALF};
use words::layout::{DIRECTORY_TAG, ENDPOINT_TAG, LATER_TAG, NOTE_SIZE, NOTES, TABLE_TAG};
use words::numbers::Slot;

// By the tag, the lowest byte of a note: one of the layout's numbers (docs/LAYOUT.md) or any other byte.
#[tactic(auto, unfolding(crate::specs::Clean::note_clean))]
fn note_clean(note: u32) -> bool
    ensures { result ≡ note_clean note }
{
    match (note % BYTE) as u8 {
        LATER_TAG | TABLE_TAG | DIRECTORY_TAG => note < HALF,
        _ => note <= u32::from(ENDPOINT_TAG),
    }
}

fn note_stands(s: &[u8], k: Slot) -> bool
    requires { length s.now ≡ state_length }
    ensures { result ≡ note_stands s.now k }
{
    note_clean(word_in(s, NOTES + NOTE_SIZE * (k.0 as usize)))
}

// Behind the n slots that are used the notes are zeros.
pub(crate) fn notes_stand(s: &[u8], n: usize) -> bool
    requires { (length s.now ≡ state_length) × Vacant s.now n }
    ensures { result ≡ all_below slot_count (λ k. note_stands s.now (slot k)) }
{
    (0..n).all(|k| note_stands(s, Slot(k as u8)))
}
