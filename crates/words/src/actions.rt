// What a call that passed its checks does: the judging half answers one of these, the committing half carries it out.
use crate::capabilities::{Capability, Geometry, Position};
use crate::numbers::{Count, Slot};

// A place: an entry of the table whose first slot is `table`.
#[derive(Clone, Copy)]
pub struct Spot {
    pub table: Slot,
    pub entry: u32,
}

#[derive(Clone, Copy)]
pub enum Action {
    CreateTable {
        at: Spot,
        first: Slot,
        entries: u32,
    },
    CreateDirectory {
        at: Spot,
        first: Slot,
        shape: Geometry,
    },
    CreateProcess {
        at: Spot,
        first: Slot,
        table: Slot,
        directory: Slot,
    },
    CreateEndpoint {
        at: Spot,
        first: Slot,
    },
    Delete {
        at: Spot,
        object: Slot,
    },
    Fill {
        at: Spot,
        right: Capability,
    },
    Freeze {
        at: Spot,
    },
    Remove {
        at: Spot,
    },
    SetPosition {
        directory: Slot,
        position: u32,
        to: Position,
    },
    ChangeTable {
        process: Slot,
        table: Slot,
    },
    ChangeDirectory {
        process: Slot,
        directory: Slot,
    },
    SetCount {
        endpoint: Slot,
        count: Count,
        taken: Count,
    },
    Answer(u32),
}
