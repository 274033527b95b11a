ghost use Rattle.std.specs.Prelude.{◌≡◌, IfOk};
ghost use Rattle.model_conf.specs.Effects.{
  effect_named,
  effect_of,
  effect_text,
  has_subjects,
  may_have,
  without_blanks,
};

use effect_fold::Effect;
use outside::NoMemory;
use perm_base::{RoleShape, Rule};
use std::alloc::Global;
use text_parts::is_blank;

/// Reads the text of an effect, blanks apart.
pub(crate) fn read_effect(alloc: Global, text: &str) -> Result<Option<Effect>, NoMemory>
    ensures { IfOk result (λ effect. effect ≡ effect_of text.now) }
{
    let bare = without_blanks(alloc, text)?;
    Ok(effect_named(&bare))
}

/// How an effect is written.
pub(crate) fn effect_text(effect: Effect) -> &'static str
    ensures { result.now ≡ effect_text effect }
{
    match effect {
        Effect::AllowOverride => "some(where (p.eft == allow))",
        Effect::DenyOverride => "!some(where (p.eft == deny))",
        Effect::AllowAndDeny => "some(where (p.eft == allow)) && !some(where (p.eft == deny))",
        Effect::Priority => "priority(p.eft) || deny",
        Effect::SubjectPriority => "subjectPriority(p.eft) || deny",
    }
}

/// A model with these relations and policy columns may have this effect.
pub(crate) fn may_have(relations: &[RoleShape], policy: &Rule, effect: Effect) -> bool
    ensures { result ≡ may_have relations.now policy.now effect }
{
    match effect {
        Effect::SubjectPriority => has_subjects(relations, policy),
        Effect::AllowOverride | Effect::DenyOverride | Effect::AllowAndDeny | Effect::Priority =>
            true,
    }
}

// `g` is declared, and where it has domains the policy has a column `dom`.
fn has_subjects(relations: &[RoleShape], policy: &Rule) -> bool
    ensures { result ≡ has_subjects relations.now policy.now }
{
    let has_column = policy.place_of(b"dom").is_some();
    relations.iter().any(|shape| shape.number == 1 && (!shape.with_domain || has_column))
}

fn without_blanks(alloc: Global, text: &str) -> Result<Vec<u8>, NoMemory>
    ensures { IfOk result (λ bare. bare.items ≡ without_blanks text.now) }
{
    let bare = text
        .as_bytes()
        .iter()
        .copied()
        .filter(|byte| !is_blank(*byte))
        .collect(alloc)?;
    Ok(bare)
}

// The effect that is written so without blanks.
fn effect_named(bare: &[u8]) -> Option<Effect>
    ensures { result ≡ effect_named bare.now }
{
    if bare == b"some(where(p.eft==allow))".as_slice() {
        Some(Effect::AllowOverride)
    } else if bare == b"!some(where(p.eft==deny))".as_slice() {
        Some(Effect::DenyOverride)
    } else if bare == b"some(where(p.eft==allow))&&!some(where(p.eft==deny))".as_slice() {
        Some(Effect::AllowAndDeny)
    } else if bare == b"priority(p.eft)||deny".as_slice() {
        Some(Effect::Priority)
    } else if bare == b"subjectPriority(p.eft)||deny".as_slice() {
        Some(Effect::SubjectPriority)
    } else {
        None
    }
}
