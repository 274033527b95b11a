ghost use Rattle.std.specs.Prelude.{◌≡◌};
ghost use Rattle.matcher_code.specs.declared.halt.Halt.TheVariants as halts;

use effect_fold::Fault;

/// Why an evaluation stopped without a value: its fault, a search that the finder refused, or want of memory.
#[derive(Clone, Copy)]
pub(crate) enum Halt<'a> {
    Fault(Fault),
    Refused { at: u32, pattern: &'a [u8] },
    NoMemory,
}

impl<'a> From<Fault> for Halt<'a> {
    ghost from_gives = { λ fault halt. halt ≡ halts.Fault fault };

    fn from(fault: Fault) -> Halt<'a> {
        Halt::Fault(fault)
    }
}
