use crate::key::Key;
use matcher_read::MatcherFault;
use outside::NoMemory;

/// Why a text is not read as a model. Of several faults the one that stands first here is told, of the four faults of
/// lines the one in the first line that has one, and of the last two of a matcher the one at the first place. Lines
/// are counted from 1, and a logical line has the number of its first.
#[derive(Clone, Copy, Debug, PartialEq, Eq)]
pub enum ModelFault {
    /// The text has more than 65,536 bytes.
    TooLong,
    /// The text is not UTF-8.
    NotUtf8,
    /// Neither `[name]` nor `key = value`, or a key before any section.
    Line { line: u32 },
    /// A section that no model has.
    UnknownSection { line: u32 },
    /// A key that its section does not have.
    UnknownKey { line: u32 },
    /// A key that came before.
    RepeatedKey { line: u32 },
    /// The key, of `r`, `p`, `e` and `m` the first, does not come.
    Missing { key: Key },
    /// The value of `r` or `p` is not 1 to 32 distinct identifiers, joined by commas.
    Columns { key: Key },
    /// The value of the relation is neither `_, _` nor `_, _, _`: 1 is `g`, 2 to 8 are `g2` to `g8`. Of several the
    /// one that comes first in the text.
    RoleShape { relation: u8 },
    /// The value of `e` is no effect; or it is the priority of subjects, and `g` is not declared, or has domains where
    /// the policy has no column `dom`.
    UnknownEffect,
    /// The value of `m` is no matcher.
    Matcher(MatcherFault),
    /// The matcher names a column that is not declared. Places count bytes of the matcher from 1.
    UnknownColumn { at: u32 },
    /// The matcher asks a relation that is not declared, or asks it with another number of names.
    RoleUse { at: u32 },
    /// Memory ran out.
    NoMemory,
}

impl From<NoMemory> for ModelFault {
    ghost use Rattle.std.specs.Prelude.{◌≡◌};
    ghost use Rattle.model_conf.specs.declared.fault.ModelFault.TheVariants.{NoMemory};

    ghost from_gives = { λ _ fault. fault ≡ NoMemory };

    fn from(_: NoMemory) -> ModelFault {
        ModelFault::NoMemory
    }
}

impl From<MatcherFault> for ModelFault {
    ghost use Rattle.std.specs.Prelude.{◌≡◌};
    ghost use Rattle.model_conf.specs.Helps.MatcherStops.{fault_of_matcher};

    ghost from_gives = { λ stop fault. fault ≡ fault_of_matcher stop };

    fn from(stop: MatcherFault) -> ModelFault {
        match stop {
            MatcherFault::NoMemory => ModelFault::NoMemory,
            _ => ModelFault::Matcher(stop),
        }
    }
}
