ghost use Rattle.std.specs.Prelude.{◌≡◌, IfOk, IsTrue};
ghost use Rattle.matcher_code.specs.Helps.Kept.{IsFrameOf};

use model_conf::Model;
use outside::NoMemory;
use perm_base::{RoleShape, Rule};
use std::alloc::Global;

/// What rule texts and their code depend on: the columns of a request and of a policy, and the role relations.
pub(crate) struct Frame {
    request: Rule,
    policy: Rule,
    relations: Vec<RoleShape>,
}

// Written out, so that a caller's proof sees one call and not the drop of each field.
impl Drop for Frame {
    fn drop(self) {
        let Frame {
            request: _request,
            policy: _policy,
            relations: _relations,
        } = self;
    }
}

impl Frame {
    /// That of a model.
    pub(crate) fn of_model(alloc: Global, model: &Model) -> Result<Frame, NoMemory>
        ensures { IfOk result (λ frame. IsFrameOf frame model.now) }
    {
        let request = model.request_columns().copy(alloc)?;
        let policy = model.policy_columns().copy(alloc)?;
        let relations = Vec::from_slice(alloc, model.relations())?;
        Ok(Frame {
            request,
            policy,
            relations,
        })
    }

    /// Whether it is that of a model.
    pub(crate) fn is_of(&self, model: &Model) -> bool
        ensures { IsTrue result → IsFrameOf self.now model.now }
    {
        if !same_columns(&self.request, model.request_columns()) {
            return false;
        }
        if !same_columns(&self.policy, model.policy_columns()) {
            return false;
        }
        same_relations(&self.relations, model.relations())
    }
}

// Whether two lists of columns are one.
fn same_columns(columns: &Rule, others: &Rule) -> bool
    ensures { IsTrue result → others.now ≡ columns.now }
{
    *columns == *others
}

// Whether two lists of relations are one.
fn same_relations(relations: &[RoleShape], others: &[RoleShape]) -> bool
    ensures { IsTrue result → others.now ≡ relations.now }
{
    relations == others
}
