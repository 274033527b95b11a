//! What calls answer. The numbers from 2 to 9 are the program's statuses (`docs/SCRIPTS.md`).

/// It was done.
pub const OK: u32 = 0;

/// The handle is closed.
pub const CLOSED: u32 = 1;

/// The text is no script, or not one item that can be called.
pub const SCRIPT: u32 = 5;

/// Memory ran out, and nothing was done.
pub const NO_MEMORY: u32 = 9;

/// The texts are no request, or not one for the model.
pub const NO_REQUEST: u32 = 10;

/// The call was refused, and nothing changed.
pub const REFUSED: u32 = 11;

/// The room is too small, and nothing was written to it.
pub const NO_ROOM: u32 = 12;

/// There is no rule with this number.
pub const NO_RULE: u32 = 13;

/// The call was done, and memory ran out for the line that tells it.
pub const UNTOLD: u32 = 14;

/// The handle holds a snapshot, which is never edited.
pub const SNAPSHOT: u32 = 15;
