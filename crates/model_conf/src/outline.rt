ghost use Rattle.std.specs.Prelude.{IfOk, IsUtf8, MatchResult};
ghost use Rattle.model_conf.specs.ModelText.{HasValues};
ghost use Rattle.model_conf.specs.Helps.Seen.{entries_seen};
ghost use Rattle.model_conf.specs.Helps.Outlines.{IsMissingIn, OutlinesOf, values_seen};

use crate::columns::read_columns;
use crate::effects::{may_have, read_effect};
use crate::entries::{Entry, value_of};
use crate::fault::ModelFault;
use crate::key::Key;
use crate::relations::{first_bad_shape, read_relations};
use effect_fold::Effect;
use perm_base::{RoleShape, Rule};
use std::alloc::Global;

/// The values of the four keys that each model has.
#[derive(Clone, Copy)]
pub(crate) struct Values<'a> {
    pub(crate) request: &'a str,
    pub(crate) policy: &'a str,
    pub(crate) effect: &'a str,
    pub(crate) matcher: &'a str,
}

/// What a model says, but its matcher.
#[derive(Drop)]
pub(crate) struct Outline {
    pub(crate) request: Rule,
    pub(crate) policy: Rule,
    pub(crate) relations: Vec<RoleShape>,
    pub(crate) effect: Effect,
}

/// The values of the four keys, or the first key that has none.
pub(crate) fn values_of(entries: &[Entry]) -> Result<Values<'_>, ModelFault>
    ensures values { MatchResult result
        (λ values. HasValues (entries_seen entries.now) (values_seen values))
        (IsMissingIn (entries_seen entries.now)) }
    ensures utf8 { IfOk result (λ values. IsUtf8 values.matcher.now) }
{
    let Some(request) = value_of(entries, "r") else {
        return Err(ModelFault::Missing { key: Key::R });
    };
    let Some(policy) = value_of(entries, "p") else {
        return Err(ModelFault::Missing { key: Key::P });
    };
    let Some(effect) = value_of(entries, "e") else {
        return Err(ModelFault::Missing { key: Key::E });
    };
    let Some(matcher) = value_of(entries, "m") else {
        return Err(ModelFault::Missing { key: Key::M });
    };
    Ok(Values {
        request,
        policy,
        effect,
        matcher,
    })
}

/// Reads all values but the matcher.
pub(crate) fn read_outline(
    alloc: Global,
    entries: &[Entry],
    values: Values,
) -> Result<Outline, ModelFault>
    requires { HasValues (entries_seen entries.now) (values_seen values) }
    ensures { OutlinesOf (entries_seen entries.now) (values_seen values.entry) result }
{
    let Some(request) = read_columns(alloc, values.request)? else {
        return Err(ModelFault::Columns { key: Key::R });
    };
    let Some(policy) = read_columns(alloc, values.policy)? else {
        return Err(ModelFault::Columns { key: Key::P });
    };
    if let Some(relation) = first_bad_shape(entries) {
        return Err(ModelFault::RoleShape { relation });
    }
    let relations = read_relations(alloc, entries)?;
    let Some(effect) = read_effect(alloc, values.effect)? else {
        return Err(ModelFault::UnknownEffect);
    };
    if !may_have(&relations, &policy, effect) {
        return Err(ModelFault::UnknownEffect);
    }
    Ok(Outline {
        request,
        policy,
        relations,
        effect,
    })
}
