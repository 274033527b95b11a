use crate::links::AskedName;
use crate::plain_parts::PlainParts;
use crate::plan::{AskedColumns, KeptPlan};
use matcher_code::Code;
use model_conf::Model;
use perm_value::Request;
use policy_state::PolicyState;
use std::alloc::Global;

/// What a decision is asked for: a model with its code and the places of columns that it knows, a policy, and a request.
#[derive(Clone, Copy)]
pub(crate) struct Asking<'a> {
    pub(crate) alloc: Global,
    pub(crate) model: &'a Model,
    pub(crate) code: &'a Code,
    // Whether the matcher names a column of the policy.
    pub(crate) by_row: bool,
    // The places of the policy's columns `eft` and `dom`.
    pub(crate) effect_place: Option<u32>,
    pub(crate) domain_place: Option<u32>,
    // By what rows are found.
    pub(crate) plan: Option<&'a KeptPlan>,
    // What a role question of the matcher asks of each row.
    pub(crate) question: Option<&'a AskedColumns>,
    // The name that it asks about, and what this reaches, where that is found.
    pub(crate) asked_name: Option<&'a AskedName<'a>>,
    // The parts of the matcher that decide alone whether it holds for a row, where there are such.
    pub(crate) parts: Option<PlainParts<'a>>,
    pub(crate) state: &'a PolicyState,
    pub(crate) request: &'a Request,
}
