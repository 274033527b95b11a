use effect_fold::Verdict;
use outside::{NoMemory, Text};
use perm_value::RequestFault;
use script_read::ScriptFault;

/// The verdict on a request, and the version of the policy by which it was judged.
#[derive(Clone, Copy)]
pub struct Decided {
    pub version: u32,
    pub verdict: Verdict,
}

/// Why a request was not judged. Nothing changed.
#[derive(Clone, Copy)]
pub enum AskStop {
    /// The ends of the texts do not rise, or go past the bytes.
    Ends,
    /// A text is not UTF-8; texts are counted from 1.
    NotUtf8 { field: u32 },
    /// Why the line is no request, or that there are too many texts.
    Request(RequestFault),
    /// The request has another number of values than the model has columns.
    Arity { got: u32, want: u32 },
    /// Memory ran out.
    NoMemory,
}

impl From<NoMemory> for AskStop {
    ghost use Rattle.std.specs.Prelude.{◌≡◌};
    ghost use Rattle.enforce_core.specs.declared.stops.AskStop.TheVariants as stops;

    ghost from_gives = { λ _ stop. stop ≡ stops.NoMemory };

    fn from(_: NoMemory) -> AskStop {
        AskStop::NoMemory
    }
}

impl From<RequestFault> for AskStop {
    ghost use Rattle.std.specs.Prelude.{◌≡◌};
    ghost use Rattle.enforce_core.specs.Asked.{ask_stop_of};

    ghost from_gives = { λ fault stop. stop ≡ ask_stop_of fault };

    fn from(fault: RequestFault) -> AskStop {
        match fault {
            RequestFault::NoMemory => AskStop::NoMemory,
            fault => AskStop::Request(fault),
        }
    }
}

/// How an item was answered: whether it was refused, and the line that a session of this one item prints.
#[derive(Drop)]
pub struct Called {
    pub refused: bool,
    pub line: Text,
}

/// Why no item was answered.
#[derive(Clone, Copy)]
pub enum CallStop {
    /// The text is no script.
    NoScript(ScriptFault),
    /// The text has another number of items than one, or its item is a request, which is asked in another way.
    NoItem,
    /// A snapshot is never edited.
    Snapshot,
    /// Memory ran out, and nothing was done, but that a publish may have raised the version before which edits may be let go.
    NoMemory,
    /// It was done, and memory ran out for the line that tells it.
    Untold,
}

impl From<NoMemory> for CallStop {
    ghost use Rattle.std.specs.Prelude.{◌≡◌};
    ghost use Rattle.enforce_core.specs.declared.stops.CallStop.TheVariants as stops;

    ghost from_gives = { λ _ stop. stop ≡ stops.NoMemory };

    fn from(_: NoMemory) -> CallStop {
        CallStop::NoMemory
    }
}

impl From<ScriptFault> for CallStop {
    ghost use Rattle.std.specs.Prelude.{◌≡◌};
    ghost use Rattle.enforce_core.specs.Called.{call_stop_of};

    ghost from_gives = { λ fault stop. stop ≡ call_stop_of fault };

    fn from(fault: ScriptFault) -> CallStop {
        match fault {
            ScriptFault::NoMemory => CallStop::NoMemory,
            fault => CallStop::NoScript(fault),
        }
    }
}
