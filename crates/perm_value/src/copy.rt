ghost use Rattle.std.specs.Prelude.{◌≡◌, IfOk, map};
ghost use Rattle.perm_value.specs.Seen.{datum, members};

use crate::value::Value;
use outside::{NoMemory, Text};
use std::alloc::Global;
use std::collections::BTreeMap;

impl Value {
    /// The same value once more.
    pub fn copy(&self, alloc: Global) -> Result<Value, NoMemory>
        ensures { IfOk result (λ copy. datum copy ≡ datum self.now) }
    {
        copy_value(alloc, self)
    }
}

#[cycle(copy)]
fn copy_value(alloc: Global, value: &Value) -> Result<Value, NoMemory>
    ensures { IfOk result (λ copy. datum copy ≡ datum value.now) }
{
    match value {
        Value::Text(text) => Ok(Value::Text(Text::from_str(alloc, text.as_str())?)),
        Value::Whole(number) => Ok(Value::Whole(*number)),
        Value::Truth(truth) => Ok(Value::Truth(*truth)),
        Value::List(values) => Ok(Value::List(copy_values(alloc, values)?)),
        Value::Object(members) => Ok(Value::Object(copy_members(alloc, members)?)),
        Value::Nothing => Ok(Value::Nothing),
    }
}

/// The same values once more.
#[cycle(copy)]
pub(crate) fn copy_values(alloc: Global, values: &Vec<Value>) -> Result<Vec<Value>, NoMemory>
    ensures { IfOk result (λ copies. map datum copies.items ≡ map datum values.now.items) }
{
    let mut copies = Vec::new(alloc);
    for value in values {
        copies.push(copy_value(alloc, value)?)?;
    }
    Ok(copies)
}

#[cycle(copy)]
fn copy_members(
    alloc: Global,
    object: &BTreeMap<String, Value>,
) -> Result<BTreeMap<String, Value>, NoMemory>
    ensures { IfOk result (λ copies. members copies.entries ≡ members object.now.entries) }
{
    let mut copies = BTreeMap::new(alloc);
    for (name, member) in object.iter() {
        let key = String::from_str(alloc, name.as_str())?;
        let value = copy_value(alloc, member)?;
        drop(copies.insert(key, value)?);
    }
    Ok(copies)
}
