ghost use Rattle.std.specs.Prelude.{◌≡◌, IfOk, Some};
ghost use Rattle.run_status.specs.Messages.{line_of};

use outside::{Failed, NoMemory, Sink};
use run_status::{Stop, push_stop};
use std::alloc::Global;

/// Bytes that are gathered in memory. A push fails where it runs out.
#[derive(Drop)]
struct Gathering {
    bytes: Vec<u8>,
    faults: u64,
}

impl Sink for Gathering {
    ghost taken = { λ g. Some g.bytes.items };

    ghost faults = { λ g. g.faults };

    fn push(&mut self, piece: &[u8]) -> Result<usize, Failed> {
        match self.bytes.extend_from_slice(piece) {
            Ok(()) => Ok(piece.len()),
            Err(_) => {
                self.faults = self.faults.saturating_add(1);
                Err(Failed)
            }
        }
    }
}

/// The line by which the program tells a stop, with its LF.
pub fn line_of_stop(alloc: Global, stop: Stop) -> Result<Vec<u8>, NoMemory>
    ensures { IfOk result (λ line. line.items ≡ line_of stop) }
{
    let bytes = Vec::new(alloc);
    let mut gathering = Gathering { bytes, faults: 0 };
    let Ok(()) = push_stop(&mut gathering, stop) else {
        return Err(NoMemory);
    };
    Ok(gathering.bytes)
}
