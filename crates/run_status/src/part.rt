ghost use Rattle.std.specs.Prelude.{◌≡◌};
ghost use Rattle.run_status.specs.Parts.{limit_of, part_name};

/// What of a run has a limit: what it reads, in this order, and the report that it writes.
#[derive(Clone, Copy, Debug, PartialEq, Eq)]
pub enum Part {
    /// The model's file.
    Model,
    /// The policy's file.
    Policy,
    /// Standard input.
    Input,
    /// The text of a report.
    Report,
}

impl Part {
    /// How many bytes it has at most.
    pub fn limit(self) -> u64
        ensures { result ≡ limit_of self }
    {
        match self {
            Part::Model => 65_536,
            Part::Policy | Part::Input | Part::Report => 16_777_216,
        }
    }

    // How messages call it.
    pub(crate) fn name(self) -> &'static str
        ensures { result.now ≡ part_name self }
    {
        match self {
            Part::Model => "model",
            Part::Policy => "policy",
            Part::Input => "input",
            Part::Report => "report",
        }
    }
}
