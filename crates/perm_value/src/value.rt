ghost use Rattle.std.specs.Prelude.{◌≡◌, ◌↔◌, Some, option_map};
ghost use Rattle.perm_value.specs.Attribute.{attribute, member_of, HasAttribute};
ghost use Rattle.perm_value.specs.Datum.{Datum, HasRisingNames};
ghost use Rattle.perm_value.specs.Seen.{datum, datum_of_view, members};

use outside::{Share, Text};
use std::collections::BTreeMap;

/// A value of a request. An object has each name once, and its names rise by bytes.
#[derive(Drop)]
pub enum Value {
    Text(Text),
    Whole(i64),
    Truth(bool),
    List(Vec<Value>),
    Object(BTreeMap<String, Value>),
    Nothing,
}

/// A value over borrowed parts. Its text is any bytes, also such as are not UTF-8.
#[derive(Clone, Copy)]
pub enum View<'a> {
    Text(&'a [u8]),
    Whole(i64),
    Truth(bool),
    List(&'a [Value]),
    Object(&'a BTreeMap<String, Value>),
    Nothing,
}

impl Share for Value {}

impl Value {
    /// The same value over borrowed parts. It takes no memory.
    pub fn view(&self) -> View<'_>
        ensures { datum_of_view result ≡ datum self.now }
    {
        match self {
            Value::Text(text) => View::Text(text.bytes()),
            Value::Whole(number) => View::Whole(*number),
            Value::Truth(truth) => View::Truth(*truth),
            Value::List(values) => View::List(values),
            Value::Object(members) => View::Object(members),
            Value::Nothing => View::Nothing,
        }
    }

    /// The value at a name, where this is an object that has the name. It takes no memory.
    pub fn member(&self, name: &str) -> Option<&Value>
        ensures value { option_map (λ v. datum v.now) result ≡ attribute (datum self.now) name.now }
        ensures exact { (d : Datum) → (option_map (λ v. datum v.now) result ≡ Some d)
            ↔ HasAttribute (datum self.now) name.now d }
    {
        match self {
            Value::Object(members) => members.get(name),
            _ => None,
        }
    }
}

impl<'a> View<'a> {
    /// The attribute with a name, where this is an object that has the name. It takes no memory.
    pub fn attribute(&self, name: &str) -> Option<View<'a>>
        ensures value { option_map datum_of_view result
            ≡ attribute (datum_of_view self.now) name.now }
        ensures exact { (d : Datum) → (option_map datum_of_view result ≡ Some d)
            ↔ HasAttribute (datum_of_view self.now) name.now d }
    {
        match *self {
            View::Object(members) => member_view(members, name),
            _ => None,
        }
    }

    /// The law that the names of an object differ and rise by bytes, at every depth. It does nothing when run.
    pub fn names_rise(&self)
        ensures { HasRisingNames (datum_of_view self.now) }
    {}
}

// The member with a name, over borrowed parts.
fn member_view<'a>(object: &'a BTreeMap<String, Value>, name: &str) -> Option<View<'a>>
    ensures { option_map datum_of_view result ≡ member_of (members object.now.entries) name.now }
{
    match object.get(name) {
        Some(value) => Some(value.view()),
        None => None,
    }
}
