ghost use Rattle.std.specs.Prelude.{◌≡◌};
ghost use Rattle.run_status.specs.Statuses.{model_status, packet_status, status_of};

use crate::part::Part;
use crate::status::Status;
use log_ship::PacketFault;
use matcher_read::MatcherFault;
use model_conf::{ModelFault, ShapeFault};
use outside::{Failed, NoMemory};
use policy_csv::PolicyFault;
use script_read::ScriptFault;

/// Why a run stopped before its end. A fault that says that memory ran out, or that a model is too long, is told as the
/// stop of that name is.
#[derive(Clone, Copy, Debug, PartialEq, Eq)]
pub enum Stop {
    /// The words are no command, or not UTF-8.
    Words,
    /// The model's file is no model.
    NoModel(ModelFault),
    /// An option names a relation that the model lacks, or the domains of one that has none: 1 is `g`, 2 to 8 are
    /// `g2` to `g8`.
    NoRelation { relation: u8 },
    /// The policy's file is no policy for the model.
    NoPolicy(PolicyFault),
    /// The input is no script, or no text of requests.
    NoScript(ScriptFault),
    /// The input is no text of packets.
    NoPackets(PacketFault),
    /// A file is absent, or a file or the input could not be read.
    CannotRead(Part),
    /// The output could not be written.
    CannotWrite,
    /// A file, the input or a report is longer than its limit.
    TooLong(Part),
    /// Memory ran out.
    NoMemory,
}

impl Stop {
    /// The status that a run ends with.
    pub fn status(self) -> Status
        ensures { result ≡ status_of self }
    {
        match self {
            Stop::Words => Status::Words,
            Stop::NoModel(fault) => model_status(fault),
            Stop::NoRelation { .. } => Status::Model,
            Stop::NoPolicy(PolicyFault::NoMemory) | Stop::NoScript(ScriptFault::NoMemory) => {
                Status::NoMemory
            }
            Stop::NoPolicy(_) => Status::Policy,
            Stop::NoScript(_) => Status::Script,
            Stop::NoPackets(fault) => packet_status(fault),
            Stop::CannotRead(_) => Status::ReadFault,
            Stop::CannotWrite => Status::WriteFault,
            Stop::TooLong(_) => Status::TooLong,
            Stop::NoMemory => Status::NoMemory,
        }
    }
}

fn model_status(fault: ModelFault) -> Status
    ensures { result ≡ model_status fault }
{
    match fault {
        ModelFault::TooLong => Status::TooLong,
        ModelFault::Matcher(MatcherFault::NoMemory) | ModelFault::NoMemory => Status::NoMemory,
        _ => Status::Model,
    }
}

fn packet_status(fault: PacketFault) -> Status
    ensures { result ≡ packet_status fault }
{
    match fault {
        PacketFault::NoMemory => Status::NoMemory,
        _ => Status::Script,
    }
}

impl From<NoMemory> for Stop {
    ghost use Rattle.run_status.specs.declared.stop.Stop.TheVariants as stops;

    ghost from_gives = { λ _ stop. stop ≡ stops.NoMemory };

    fn from(_: NoMemory) -> Stop {
        Stop::NoMemory
    }
}

// Of what can fail without a name, only the output is left.
impl From<Failed> for Stop {
    ghost use Rattle.run_status.specs.declared.stop.Stop.TheVariants as stops;

    ghost from_gives = { λ _ stop. stop ≡ stops.CannotWrite };

    fn from(_: Failed) -> Stop {
        Stop::CannotWrite
    }
}

impl From<ModelFault> for Stop {
    ghost use Rattle.run_status.specs.Stops.{model_stop_of};

    ghost from_gives = { λ fault stop. stop ≡ model_stop_of fault };

    fn from(fault: ModelFault) -> Stop {
        match fault {
            ModelFault::NoMemory => Stop::NoMemory,
            fault => Stop::NoModel(fault),
        }
    }
}

impl From<ShapeFault> for Stop {
    ghost use Rattle.run_status.specs.Stops.{shape_stop_of};

    ghost from_gives = { λ fault stop. stop ≡ shape_stop_of fault };

    fn from(fault: ShapeFault) -> Stop {
        match fault {
            ShapeFault::NoRelation { relation } => Stop::NoRelation { relation },
            ShapeFault::NoMemory => Stop::NoMemory,
        }
    }
}

impl From<PolicyFault> for Stop {
    ghost use Rattle.run_status.specs.Stops.{policy_stop_of};

    ghost from_gives = { λ fault stop. stop ≡ policy_stop_of fault };

    fn from(fault: PolicyFault) -> Stop {
        match fault {
            PolicyFault::NoMemory => Stop::NoMemory,
            fault => Stop::NoPolicy(fault),
        }
    }
}

impl From<ScriptFault> for Stop {
    ghost use Rattle.run_status.specs.Stops.{script_stop_of};

    ghost from_gives = { λ fault stop. stop ≡ script_stop_of fault };

    fn from(fault: ScriptFault) -> Stop {
        match fault {
            ScriptFault::NoMemory => Stop::NoMemory,
            fault => Stop::NoScript(fault),
        }
    }
}

impl From<PacketFault> for Stop {
    ghost use Rattle.run_status.specs.Stops.{packet_stop_of};

    ghost from_gives = { λ fault stop. stop ≡ packet_stop_of fault };

    fn from(fault: PacketFault) -> Stop {
        match fault {
            PacketFault::NoMemory => Stop::NoMemory,
            fault => Stop::NoPackets(fault),
        }
    }
}
