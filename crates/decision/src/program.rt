ghost use Rattle.std.specs.Prelude.{◌≡◌, ◌↔◌, ◌≢◌, IfErr, IfOk, IfSome, Ok, length, true};
ghost use Rattle.policy_index.specs.Keys.{is_below};
ghost use Rattle.decision.specs.Plans.{index_key};

use crate::asking::Asking;
use crate::names::names_policy;
use crate::plan::{AskedColumns, KeptPlan, plan_of, question_in};
use matcher_code::{Code, build};
use model_conf::Model;
use outside::{NoMemory, Share};
use perm_value::Request;
use policy_index::RowKey;
use policy_state::PolicyState;
use std::alloc::Global;

/// A model, ready to judge requests. Contracts see the model.
pub struct Program {
    model: Model,
    code: Code,
    // Whether the matcher names a column of the policy.
    by_row: bool,
    // The places of the policy's columns `eft` and `dom`.
    effect_place: Option<u32>,
    domain_place: Option<u32>,
    // By what rows are found that may match.
    plan: Option<KeptPlan>,
    // What a role question of the matcher asks of each row.
    question: Option<AskedColumns>,
}

// Written out, so that a caller's proof sees one call and not the drop of each field.
impl Drop for Program {
    fn drop(self) {
        let Program {
            model: _model,
            code: _code,
            by_row: _by_row,
            effect_place: _effect_place,
            domain_place: _domain_place,
            plan: _plan,
            question: _question,
        } = self;
    }
}

impl std::marker::Model for Program {
    ghost use Rattle.std.specs.Coded.{Coded, codes};
    ghost use Rattle.model_conf.specs.Helps.ExpressionCode.{Sign, expression_code};
    ghost use Rattle.model_conf.specs.ModelText.{ModelParts};
    ghost use Rattle.decision.specs.Helps.Parts.{IsProgram};

    ghost Value = { ModelParts };

    ghost coded = { let s : Coded Sign = Prim.hlevel codes in Prim.hlevel (codes, expression_code s) };

    ghost view = { λ p. p.model };

    ghost invariant = { λ p.
        IsProgram p.model p.code p.by_row p.effect_place p.domain_place p.plan };
}

impl Share for Program {}

/// A request has another number of values than the model wants.
#[derive(Clone, Copy, Debug, PartialEq, Eq)]
pub struct Arity {
    pub got: u32,
    pub want: u32,
}

/// Makes a model ready to judge requests: its matcher becomes code. A refusal drops the model.
pub fn make_program(alloc: Global, model: Model) -> Result<Program, NoMemory>
    ensures { IfOk result (λ program. program ≡ model) }
{
    let code = build(alloc, &model)?;
    let by_row = names_policy(model.matcher());
    let effect_place = model.policy_columns().place_of(b"eft");
    let domain_place = model.policy_columns().place_of(b"dom");
    let plan = plan_of(alloc, &model)?;
    let question = question_in(model.matcher(), &model);
    Ok(Program {
        model,
        code,
        by_row,
        effect_place,
        domain_place,
        plan,
        question,
    })
}

impl Program {
    /// The model.
    pub fn model(&self) -> &Model
        ensures { result.now ≡ self.now }
    {
        &self.model
    }

    /// The key of the index by which the rows that may match are found; where there is none, all may.
    pub fn index_key(&self, alloc: Global) -> Result<Option<RowKey>, NoMemory>
        ensures key { IfOk result (λ key. key ≡ index_key self.now) }
        ensures within { IfOk result (λ key. IfSome key (λ key.
            is_below (length self.now.policy) key ≡ true)) }
    {
        match &self.plan {
            Some(plan) => Ok(Some(plan.key.copy(alloc)?)),
            None => Ok(None),
        }
    }

    /// Whether a request has as many values as the model has columns for it.
    pub fn takes(&self, request: &Request) -> Result<(), Arity>
        ensures taken { (result ≡ Ok tt) ↔ (length request.now ≡ length self.now.request) }
        ensures refused { IfErr result (λ arity. (length request.now ≢ length self.now.request)
            × (arity ≡ record { got = length request.now; want = length self.now.request })) }
    {
        let got = request.len();
        let want = self.model.request_columns().len();
        if got != want {
            return Err(Arity { got, want });
        }
        Ok(())
    }
}

impl Program {
    ghost use Rattle.decision.specs.Helps.Asked.{IsAsked, KnowsName};

    /// What a request over a policy is asked for.
    pub(crate) fn asking<'a>(
        &'a self,
        alloc: Global,
        state: &'a PolicyState,
        request: &'a Request,
    ) -> Asking<'a>
        ensures asked { IsAsked result }
        ensures knows { KnowsName result }
        ensures model { result.model.now ≡ self.now }
        ensures state { result.state.now ≡ state.now }
        ensures request { result.request.now ≡ request.now }
    {
        Asking {
            alloc,
            model: &self.model,
            code: &self.code,
            by_row: self.by_row,
            effect_place: self.effect_place,
            domain_place: self.domain_place,
            plan: self.plan.as_ref(),
            question: self.question.as_ref(),
            asked_name: None,
            parts: None,
            state,
            request,
        }
    }
}
