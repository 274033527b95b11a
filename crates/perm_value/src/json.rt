ghost use Rattle.std.specs.Prelude.{◌≡◌, ◌≢◌, ◌≤◌, IfErr, IfOk};
ghost use Rattle.std.specs.Prelude.{Err, None, Ok, Some, length, map, nat_le, option_map};
ghost use Rattle.serde_json.specs.Data.{depth, items_depth, members_depth};
ghost use Rattle.serde_json.specs.Read.{read};
ghost use Rattle.serde_json.specs.View.{view, items_view, members_view};
ghost use Rattle.perm_value.specs.Json.{datum_of, items_of_json, member_value, members_of_json};
ghost use Rattle.perm_value.specs.Json.{most_values, values_from, values_of};
ghost use Rattle.perm_value.specs.Seen.{datum, items, members};
ghost use Rattle.perm_value.specs.declared.request.RequestFault.TheVariants as fault;

use crate::request::{Request, RequestFault};
use crate::value::Value;
use outside::{NoMemory, Text};
use serde_json::Value as Json;
use std::alloc::Global;
use std::collections::BTreeMap;

// How many values a request has at most.
const MOST_VALUES: usize = 34;

// How deep a value of a request nests at most; the array around it is one level more.
const MOST_LEVELS: u32 = 15;

/// The request that a JSON array is. `null` is nothing, and the last of equal names counts.
// What it keeps is large, and stays out of the frame of those who read lines.
#[inline(never)]
pub fn request_of_json(alloc: Global, line: &str) -> Result<Request, RequestFault>
    ensures found { IfOk result (λ request. values_of (read line.now) ≡ Ok (map datum request)) }
    ensures fault { IfErr result (λ e. e ≢ fault.NoMemory → values_of (read line.now) ≡ Err e) }
{
    let json = read_json(alloc, line)?;
    let Json::Array(items) = &json else {
        return Err(RequestFault::NotAnArray);
    };
    if items.len() > MOST_VALUES {
        return Err(RequestFault::TooMany);
    }
    Ok(Request::from_vec(member_values(alloc, items)?))
}

// The JSON value of a text.
fn read_json(alloc: Global, line: &str) -> Result<Json, RequestFault>
    ensures found { IfOk result (λ j. read line.now ≡ Some (view j)) }
    ensures fault { IfErr result (λ e. e ≢ fault.NoMemory
        → (e ≡ fault.Syntax) × (read line.now ≡ None)) }
{
    match Json::from_str(alloc, line) {
        Ok(json) => Ok(json),
        Err(error) => {
            if error.is_memory() {
                Err(RequestFault::NoMemory)
            } else {
                Err(RequestFault::Syntax)
            }
        }
    }
}

// The values of the members of an array, or the first fault.
fn member_values(alloc: Global, items: &Vec<Json>) -> Result<Vec<Value>, RequestFault>
    requires { length items.now.items ≤ most_values }
    ensures found { IfOk result (λ vs. values_from 1 (items_view items.now.items)
        ≡ Ok (map datum vs.items)) }
    ensures counted { IfOk result (λ vs. length vs.items ≡ length items.now.items) }
    ensures fault { IfErr result (λ e. e ≢ fault.NoMemory
        → values_from 1 (items_view items.now.items) ≡ Err e) }
{
    let mut values = Vec::new(alloc);
    for (at, item) in items.iter().enumerate() {
        let value = member_value(alloc, at as u32 + 1, item)?;
        values.push(value).map_err(NoMemory::from)?;
    }
    Ok(values)
}

// The value of the member at a place, counted from 1, or its fault.
fn member_value(alloc: Global, field: u32, item: &Json) -> Result<Value, RequestFault>
    ensures found { IfOk result (λ v. member_value field (view item.now) ≡ Ok (datum v)) }
    ensures fault { IfErr result (λ e. e ≢ fault.NoMemory
        → member_value field (view item.now) ≡ Err e) }
{
    if !is_within(item, MOST_LEVELS) {
        return Err(RequestFault::TooDeep { field });
    }
    match value_of(alloc, item)? {
        Some(value) => Ok(value),
        None => Err(RequestFault::NotWhole { field }),
    }
}

// Whether arrays and objects nest at most so deep.
#[cycle(within)]
fn is_within(json: &Json, levels: u32) -> bool
    ensures { result ≡ nat_le (depth (view json.now)) levels }
{
    match json {
        Json::Array(items) => levels > 0 && are_items_within(items, levels - 1),
        Json::Object(members) => levels > 0 && are_members_within(members, levels - 1),
        _ => true,
    }
}

#[cycle(within)]
fn are_items_within(items: &Vec<Json>, levels: u32) -> bool
    ensures { result ≡ nat_le (items_depth (items_view items.now.items)) levels }
{
    for item in items {
        if !is_within(item, levels) {
            return false;
        }
    }
    true
}

#[cycle(within)]
fn are_members_within(members: &BTreeMap<String, Json>, levels: u32) -> bool
    ensures { result ≡ nat_le (members_depth (members_view members.now.entries)) levels }
{
    for (_, member) in members.iter() {
        if !is_within(member, levels) {
            return false;
        }
    }
    true
}

// The value of a JSON value, or nothing where a number in it is not whole.
#[cycle(values)]
fn value_of(alloc: Global, json: &Json) -> Result<Option<Value>, NoMemory>
    ensures { IfOk result (λ found. datum_of (view json.now) ≡ option_map datum found) }
{
    match json {
        Json::Null => Ok(Some(Value::Nothing)),
        Json::Bool(truth) => Ok(Some(Value::Truth(*truth))),
        Json::Number(number) => match number.as_i64() {
            Some(whole) => Ok(Some(Value::Whole(whole))),
            None => Ok(None),
        },
        Json::String(text) => Ok(Some(Value::Text(Text::from_str(alloc, text.as_str())?))),
        Json::Array(items) => match values_of(alloc, items)? {
            Some(values) => Ok(Some(Value::List(values))),
            None => Ok(None),
        },
        Json::Object(members) => match members_of(alloc, members)? {
            Some(members) => Ok(Some(Value::Object(members))),
            None => Ok(None),
        },
    }
}

#[cycle(values)]
fn values_of(alloc: Global, list: &Vec<Json>) -> Result<Option<Vec<Value>>, NoMemory>
    ensures { IfOk result (λ found. items_of_json (items_view list.now.items)
        ≡ option_map (λ vs. items vs.items) found) }
{
    let mut values = Vec::new(alloc);
    for item in list {
        let Some(value) = value_of(alloc, item)? else {
            return Ok(None);
        };
        values.push(value)?;
    }
    Ok(Some(values))
}

#[cycle(values)]
fn members_of(
    alloc: Global,
    object: &BTreeMap<String, Json>,
) -> Result<Option<BTreeMap<String, Value>>, NoMemory>
    ensures { IfOk result (λ found. members_of_json (members_view object.now.entries)
        ≡ option_map (λ m. members m.entries) found) }
{
    let mut copies = BTreeMap::new(alloc);
    for (key, member) in object.iter() {
        let name = String::from_str(alloc, key.as_str())?;
        let Some(value) = value_of(alloc, member)? else {
            return Ok(None);
        };
        drop(copies.insert(name, value)?);
    }
    Ok(Some(copies))
}
