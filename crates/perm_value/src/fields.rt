ghost use Rattle.std.specs.Prelude.{◌≡◌, ◌+◌, ◌<◌, ◌≤◌, ◌++◌, ◌∷◌, [], IfOk, IfErr, List, MatchResult, OnOk, length, map, take};
ghost use Rattle.perm_base.specs.FieldSteps.{Gives, fields_of};
ghost use Rattle.perm_value.specs.Datum.{Datum, text};
ghost use Rattle.perm_value.specs.Fields.{AreTexts, IsLineFault};
ghost use Rattle.perm_value.specs.Helps.Texts.{as_texts};
ghost use Rattle.perm_value.specs.Seen.{datum};
ghost use Rattle.perm_value.specs.declared.request.RequestFault.TheVariants as fault;

use crate::request::{Request, RequestFault};
use crate::value::Value;
use outside::NoMemory;
use perm_base::{FieldFault, LineField, first_field};
use std::alloc::Global;

// How many fields a line has at most.
const MOST_FIELDS: usize = 34;

/// The request of the fields of a line, which are joined by commas and may be quoted. Each field is a text.
pub fn request_of_fields(alloc: Global, line: &str) -> Result<Request, RequestFault>
    ensures found { IfOk result (λ request. AreTexts line.now (map datum request)) }
    ensures only { (values : List Datum) → AreTexts line.now values
        → MatchResult result (λ request. map datum request ≡ values) (λ e. e ≡ fault.NoMemory) }
    ensures fault { IfErr result (IsLineFault line.now) }
{
    request_over_fields(alloc, Vec::new(alloc), line)
}

/// The same request, whose values take the place of others. Where there were as many of these, it takes memory for long texts
/// alone.
pub fn request_over_fields(
    alloc: Global,
    others: Vec<Value>,
    line: &str,
) -> Result<Request, RequestFault>
    ensures found { IfOk result (λ request. AreTexts line.now (map datum request)) }
    ensures only { (values : List Datum) → AreTexts line.now values
        → MatchResult result (λ request. map datum request ≡ values) (λ e. e ≡ fault.NoMemory) }
    ensures fault { IfErr result (IsLineFault line.now) }
{
    let values = values_over(alloc, others, line)?;
    Ok(Request::from_vec(values))
}

// The fields of a line as values, in the place of others.
fn values_over(alloc: Global, others: Vec<Value>, line: &str) -> Result<Vec<Value>, FieldFault>
    ensures exact { Gives (λ values. map datum values.items) result (as_texts (fields_of line.now)) }
    ensures few { IfOk result (λ values. length values.items ≤ 34) }
{
    let mut values = others;
    let mut rest = line;
    for at in 0..MOST_FIELDS {
        let (field, behind) = first_field(alloc, line.len(), rest)?;
        put_field(alloc, &mut values, at, field)?;
        let Some(next) = behind else {
            values.truncate(at + 1);
            return Ok(values);
        };
        rest = next;
    }
    Err(FieldFault::TooMany)
}

// Puts a field in the place of the value at a place, or behind all values.
fn put_field(
    alloc: Global,
    values: &mut Vec<Value>,
    at: usize,
    field: LineField,
) -> Result<(), NoMemory>
    requires { at ≤ length values.old.items }
    ensures put { OnOk result (map datum (take (at + 1) values.new.items)
        ≡ map datum (take at values.old.items) ++ text field.entry ∷ []) }
    ensures within { OnOk result (at < length values.new.items) }
{
    if at < values.len() {
        return put_value(alloc, &mut values[at], field);
    }
    let value = Value::Text(field.into_text(alloc)?);
    values.push(value)?;
    Ok(())
}

// Puts a field in the place of a value.
fn put_value(alloc: Global, value: &mut Value, field: LineField) -> Result<(), NoMemory>
    ensures { OnOk result (datum value.new ≡ text field.entry) }
{
    match value {
        Value::Text(text) => field.put_in(alloc, text),
        _ => {
            *value = Value::Text(field.into_text(alloc)?);
            Ok(())
        }
    }
}
