//! The values of a request, and the readers of a request that is written as fields or as JSON.
#![tactic(auto)]

mod compare;
mod copy;
mod fields;
mod hashes;
mod json;
mod request;
mod value;

pub use fields::{request_of_fields, request_over_fields};
pub use json::request_of_json;
pub use request::{Request, RequestFault};
pub use value::{Value, View};
