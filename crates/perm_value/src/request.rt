ghost use Rattle.std.specs.Prelude.{◌≡◌, ◌<◌, ◌^◌, All, IfOk, Some};
ghost use Rattle.std.specs.Prelude.{length, map, slice_get, vec_len};
ghost use Rattle.perm_value.specs.Datum.{HasRisingNames};
ghost use Rattle.perm_value.specs.Seen.{datum, datum_of_view};

use crate::copy::copy_values;
use crate::value::{Value, View};
use outside::{NoMemory, Share};
use perm_base::FieldFault;
use std::alloc::Global;
use std::marker::Model;

/// The values of a request in their order, fewer than 2^32. Contracts see the list of its values.
#[derive(Drop)]
pub struct Request {
    values: Vec<Value>,
}

impl Model for Request {
    ghost use Rattle.std.specs.Prelude.{List, ◌<◌, ◌^◌, length};
    ghost use Rattle.std.specs.Coded.{codes};
    ghost use Rattle.perm_value.specs.declared.value.Value as value;
    ghost use Rattle.perm_value.specs.contracts.value.Value as value_row;

    ghost Value = { List value.Value };

    ghost coded = { Prim.hlevel (codes, value_row.the_row.coded) };

    ghost view = { λ r. r.values.items };

    ghost invariant = { λ r. length r.values.items < 2 ^ 32 };
}

/// Why a line is no request.
#[derive(Clone, Copy, Debug, PartialEq, Eq)]
pub enum RequestFault {
    /// A quote that is out of place, at a column that is counted from 1.
    Quote { column: u32 },
    /// More than 34 fields or members.
    TooMany,
    /// The line is no JSON.
    Syntax,
    /// The JSON is no array.
    NotAnArray,
    /// The first member that nests too deep, counted from 1.
    TooDeep { field: u32 },
    /// The first member with a number that is no whole number of 64 bits, counted from 1.
    NotWhole { field: u32 },
    /// Memory ran out.
    NoMemory,
}

impl Share for Request {}

impl From<NoMemory> for RequestFault {
    ghost use Rattle.std.specs.Prelude.{◌≡◌};
    ghost use Rattle.perm_value.specs.declared.request.RequestFault.TheVariants.{NoMemory};

    ghost from_gives = { λ _ fault. fault ≡ NoMemory };

    fn from(_: NoMemory) -> RequestFault {
        RequestFault::NoMemory
    }
}

impl From<FieldFault> for RequestFault {
    ghost use Rattle.std.specs.Prelude.{◌≡◌};
    ghost use Rattle.perm_value.specs.Fields.{fault_of};

    ghost from_gives = { λ field fault. fault ≡ fault_of field };

    fn from(fault: FieldFault) -> RequestFault {
        match fault {
            FieldFault::Quote { column } => RequestFault::Quote { column },
            FieldFault::TooMany => RequestFault::TooMany,
            FieldFault::NoMemory => RequestFault::NoMemory,
        }
    }
}

impl Request {
    /// The request of these values. It takes no memory.
    pub fn from_vec(values: Vec<Value>) -> Request
        requires { vec_len values < 2 ^ 32 }
        ensures { result ≡ values.items }
    {
        Request { values }
    }

    /// The values as a `Vec`. It takes no memory.
    pub fn into_vec(self) -> Vec<Value>
        ensures { result.items ≡ self }
    {
        self.values
    }

    /// The values in their order.
    pub fn as_slice(&self) -> &[Value]
        ensures { result.now ≡ self.now }
    {
        &self.values
    }

    /// The same request once more.
    pub fn copy(&self, alloc: Global) -> Result<Request, NoMemory>
        ensures { IfOk result (λ copy. map datum copy ≡ map datum self.now) }
    {
        Ok(Request {
            values: copy_values(alloc, &self.values)?,
        })
    }

    /// How many values it has.
    pub fn len(&self) -> u32
        ensures { result ≡ length self.now }
    {
        self.values.len() as u32
    }

    /// The value at a place, counted from 0, over borrowed parts. It takes no memory.
    pub fn value(&self, at: u32) -> View<'_>
        requires { at < length self.now }
        ensures { slice_get (map datum self.now) at ≡ Some (datum_of_view result) }
    {
        self.values[at as usize].view()
    }

    /// The law that the names of an object in a request differ and rise by bytes, at every depth. It does nothing when run.
    pub fn names_rise(&self)
        ensures { All HasRisingNames (map datum self.now) }
    {}
}
