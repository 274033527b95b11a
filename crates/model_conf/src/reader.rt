ghost use Rattle.std.specs.Prelude.{◌≡◌, ◌≢◌, IfErr, IfOk, MatchResult};
ghost use Rattle.effect_fold.specs.declared.effect.Effect.{Effect};
ghost use Rattle.model_conf.specs.Faults as faults;
ghost use Rattle.model_conf.specs.Helps.Misuses.{misuse_fault};
ghost use Rattle.model_conf.specs.ModelText.{HasEffect, IsModel, ModelParts, SayModel};
ghost use Rattle.model_conf.specs.ModelText as text;
ghost use Rattle.model_conf.specs.Helps.Outlines.{HasTextOfMatcher, IsSettled};
ghost use Rattle.model_conf.specs.Helps.Seen.{entries_seen};
ghost use Rattle.model_conf.specs.declared.fault.ModelFault as fault;

use crate::entries::{Entry, read_entries};
use crate::fault::ModelFault;
use crate::model::Model;
use crate::outline::{read_outline, values_of};
use crate::uses::{Declared, Misuse};
use effect_fold::Effect;
use matcher_read::read_matcher;
use outside::Text;
use std::alloc::Global;

// The greatest number of bytes.
const MOST_BYTES: usize = 65536;

/// Reads the text of a model. Lines are cut at LF or CR LF. A line of blanks alone, or one whose first byte that is no
/// blank is `#` or `;`, is passed over; any other is continued by the next as long as it ends in `\`, and dropped from
/// the first `#` on that stands outside a quoted text. What is left is `[section]` or `key = value`: the columns `r`
/// and `p`, the effect `e`, the matcher `m`, and role relations `g` and `g2` to `g8`, of which there may be none. Where a
/// text is no model, its first `ModelFault` is told.
pub fn read_model(alloc: Global, bytes: &[u8]) -> Result<Model, ModelFault>
    // What is read is what the bytes say.
    ensures found { IfOk result (IsModel bytes.now) }
    // What the bytes say is read, unless memory runs out.
    ensures only { (model : ModelParts) → IsModel bytes.now model
        → MatchResult result (λ read. read ≡ model) (λ fault. fault ≡ ModelFault.NoMemory) }

    // Each fault is the first of the bytes, and their first fault is told.
    ensures fault { IfErr result (λ fault.
        fault ≢ ModelFault.NoMemory → faults.IsModelFault bytes.now fault) }
    ensures only_fault { (first : fault.ModelFault) → faults.IsModelFault bytes.now first
        → MatchResult result (λ read. ⊥) (λ fault. fault ≢ ModelFault.NoMemory → fault ≡ first) }
{
    if bytes.len() > MOST_BYTES {
        return Err(ModelFault::TooLong);
    }
    let Ok(text) = str::from_utf8(bytes) else {
        return Err(ModelFault::NotUtf8);
    };
    let entries = read_entries(alloc, text)?;
    model_of(alloc, &entries.entries)
}

// The model that entries say.
fn model_of(alloc: Global, entries: &[Entry]) -> Result<Model, ModelFault>
    requires { HasTextOfMatcher (entries_seen entries.now) }
    ensures found { IfOk result (SayModel (entries_seen entries.now)) }
    ensures fault { IfErr result (λ fault.
        fault ≢ ModelFault.NoMemory → faults.IsEntryFault (entries_seen entries.now) fault) }
    ensures settled { (values : text.Values) (effect : Effect)
        → HasEffect (entries_seen entries.now) values effect
        → MatchResult result
        (λ read. IsSettled values.matcher)
        (λ fault. fault ≢ ModelFault.NoMemory → IsSettled values.matcher) }
{
    let values = values_of(entries)?;
    let outline = read_outline(alloc, entries, values)?;
    let tree = read_matcher(alloc, values.matcher)?;
    let declared = Declared {
        request: &outline.request,
        policy: &outline.policy,
        relations: &outline.relations,
    };
    if let Some(misuse) = declared.first_misuse(&tree) {
        return Err(misuse_fault(misuse));
    }
    let matcher_text = Text::from_str(alloc, values.matcher)?;
    Ok(Model::from_parts(
        outline.request,
        outline.policy,
        outline.relations,
        outline.effect,
        matcher_text,
        tree,
    ))
}

fn misuse_fault(misuse: Misuse) -> ModelFault
    ensures { result ≡ misuse_fault misuse }
{
    match misuse {
        Misuse::Column { at } => ModelFault::UnknownColumn { at },
        Misuse::Role { at } => ModelFault::RoleUse { at },
    }
}
