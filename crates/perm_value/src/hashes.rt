ghost use Rattle.std.specs.Prelude.{◌≡◌, fold};
ghost use Rattle.perm_value.specs.Hashed.{datum_fed, items_fed, members_fed};
ghost use Rattle.perm_value.specs.Helps.EqualityLaws.{request_fed-Alike, value_fed-Alike};
ghost use Rattle.perm_value.specs.Seen.{datum, items, members};

use crate::request::Request;
use crate::value::Value;
use std::collections::BTreeMap;
use std::hash::{Hash, Hasher};

// What stands before a value of each kind, and behind the last of several.
const NOTHING: u8 = 0;

const TRUTH: u8 = 1;

const WHOLE: u8 = 2;

const TEXT: u8 = 3;

const LIST: u8 = 4;

const OBJECT: u8 = 5;

const END: u8 = 6;

/// A value is hashed by its datum, whole. It takes no memory.
impl Hash for Value {
    ghost hash_input = { λ v. datum_fed (datum v) };

    ghost respects_eq = { value_fed-Alike.fed };

    fn hash<H: Hasher>(&self, state: &mut H) {
        feed(self, state);
    }
}

/// A request is hashed by all its values. It takes no memory.
impl Hash for Request {
    ghost hash_input = { λ r. items_fed (items r) };

    ghost respects_eq = { request_fed-Alike.fed };

    fn hash<H: Hasher>(&self, state: &mut H) {
        feed_items(self.as_slice(), state);
    }
}

#[cycle(feed)]
fn feed<H: Hasher>(value: &Value, state: &mut H)
    ensures { state.new ≡ fold H.write state.old (datum_fed (datum value.now)) }
{
    match value {
        Value::Text(text) => {
            state.write_u8(TEXT);
            text.hash(state);
        }
        Value::Whole(number) => {
            state.write_u8(WHOLE);
            state.write_i64(*number);
        }
        Value::Truth(truth) => {
            state.write_u8(TRUTH);
            truth.hash(state);
        }
        Value::List(values) => {
            state.write_u8(LIST);
            feed_items(values, state);
        }
        Value::Object(members) => {
            state.write_u8(OBJECT);
            feed_members(members, state);
        }
        Value::Nothing => state.write_u8(NOTHING),
    }
}

#[cycle(feed)]
fn feed_items<H: Hasher>(values: &[Value], state: &mut H)
    ensures { state.new ≡ fold H.write state.old (items_fed (items values.now)) }
{
    for value in values {
        feed(value, state);
    }
    state.write_u8(END);
}

#[cycle(feed)]
fn feed_members<H: Hasher>(object: &BTreeMap<String, Value>, state: &mut H)
    ensures { state.new ≡ fold H.write state.old (members_fed (members object.now.entries)) }
{
    for (name, value) in object.iter() {
        name.as_str().hash(state);
        feed(value, state);
    }
    state.write_u8(END);
}
