ghost use Rattle.std.specs.Prelude.{◌≡◌, ◌≤◌, OnOk, OnErr, string_bytes, []};
ghost use Rattle.outside.specs.Faults.{Rose};
ghost use Rattle.outside.specs.Told.{TookFront};
ghost use Rattle.loaded_work.specs.Helps.GatheredLines.{Moves};

use outside::{Failed, Sink, push_all};

// How many bytes of answers are gathered before they are pushed.
const GATHERED: usize = 16_384;

/// Pushes a text once enough of it is gathered; it is empty then.
pub fn push_full<K: Sink>(out: &mut K, text: &mut String) -> Result<(), Failed>
    ensures moved { OnOk result (Moves (K.taken out.old) (K.taken out.new)
        (string_bytes text.old) (string_bytes text.new)) }
    ensures stopped { OnErr result
        (TookFront (K.taken out.old) (K.taken out.new) (string_bytes text.old)) }
    ensures failed { OnErr result (Rose (K.faults out.old) (K.faults out.new)) }
    ensures counted { K.faults out.old ≤ K.faults out.new }
{
    if text.len() < GATHERED {
        return Ok(());
    }
    push_all(out, text.as_bytes())?;
    text.clear();
    Ok(())
}
