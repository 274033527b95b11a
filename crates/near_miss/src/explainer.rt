ghost use Rattle.std.specs.Prelude.{◌≡◌, [], IfOk};
ghost use Rattle.near_miss.specs.Parts.{AreParts};

use crate::part::Part;
use crate::parts::{is_told, parts_in};
use model_conf::Model;
use outside::{NoMemory, Share};
use std::alloc::Global;

/// The parts of a model's matcher, ready to be judged for rows. Contracts see each as a model of its own.
pub struct Explainer {
    pub(crate) parts: Vec<Part>,
}

// Written out, so that a caller's proof sees one call and not the drop of each field.
impl Drop for Explainer {
    fn drop(self) {
        let Explainer { parts: _parts } = self;
    }
}

impl std::marker::Model for Explainer {
    ghost use Rattle.std.specs.Prelude.{List};
    ghost use Rattle.std.specs.Coded.{Coded, codes};
    ghost use Rattle.model_conf.specs.Helps.ExpressionCode.{Sign, expression_code};
    ghost use Rattle.model_conf.specs.ModelText.{ModelParts};

    ghost Value = { List ModelParts };

    ghost coded = { let s : Coded Sign = Prim.hlevel codes in Prim.hlevel (codes, expression_code s) };

    ghost view = { λ e. e.parts.items };
}

impl Share for Explainer {}

/// Makes the parts of a model's matcher ready: those that `&&` joins, where the matcher is such a conjunction and names a
/// column of the policy, and none otherwise. Each is written out and read as the matcher of a model of its own; where one
/// of them makes a text of a model with more bytes than a model may have, there are none.
pub fn make_explainer(alloc: Global, model: &Model) -> Result<Explainer, NoMemory>
    ensures { IfOk result (AreParts model.now) }
{
    let matcher = model.matcher();
    if !is_told(matcher) {
        return Ok(without_parts(alloc));
    }
    match parts_in(alloc, model, matcher)? {
        Some(parts) => Ok(Explainer { parts }),
        None => Ok(without_parts(alloc)),
    }
}

// Nothing to judge. It takes no memory.
fn without_parts(alloc: Global) -> Explainer
    ensures { result ≡ [] }
{
    Explainer {
        parts: Vec::new(alloc),
    }
}
