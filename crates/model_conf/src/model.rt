ghost use Rattle.std.specs.Prelude.{◌≡◌, None};
ghost use Rattle.matcher_read.specs.Expression.{expression};
ghost use Rattle.matcher_read.specs.Matcher.{IsMatcher};
ghost use Rattle.model_conf.specs.Columns.{AreColumns};
ghost use Rattle.model_conf.specs.Kept.{AreRelations, IsKept, IsPartOfLine};
ghost use Rattle.model_conf.specs.ModelText.{parts_of};
ghost use Rattle.model_conf.specs.Shapes.{is_ranked};
ghost use Rattle.model_conf.specs.Uses.{first_undeclared, uses};

use effect_fold::Effect;
use matcher_read::Tree;
use outside::{Share, Text};
use perm_base::{RoleShape, Rule};

/// A model: the columns of a request and of a policy, the role relations, the effect and the matcher. Contracts see
/// these parts, the matcher as a text and as an expression.
pub struct Model {
    request: Rule,
    policy: Rule,
    relations: Vec<RoleShape>,
    effect: Effect,
    matcher_text: Text,
    matcher: Tree,
}

// Written out, so that a caller's proof sees one call and not the drop of each field.
impl Drop for Model {
    fn drop(self) {
        let Model {
            request: _request,
            policy: _policy,
            relations: _relations,
            effect: _effect,
            matcher_text: _matcher_text,
            matcher: _matcher,
        } = self;
    }
}

impl std::marker::Model for Model {
    ghost use Rattle.std.specs.Coded.{Coded, codes};
    ghost use Rattle.matcher_read.specs.Expression.{expression};
    ghost use Rattle.model_conf.specs.Helps.ExpressionCode.{Sign, expression_code};
    ghost use Rattle.model_conf.specs.Kept.{IsKept};
    ghost use Rattle.model_conf.specs.ModelText.{ModelParts, parts_of};

    ghost Value = { ModelParts };

    ghost coded = { let s : Coded Sign = Prim.hlevel codes in Prim.hlevel (codes, expression_code s) };

    ghost view = { λ m. parts_of
        m.request m.policy m.relations.items m.effect m.matcher_text (expression m.matcher) };

    ghost invariant = { λ m. IsKept (parts_of
        m.request m.policy m.relations.items m.effect m.matcher_text (expression m.matcher)) };
}

impl Share for Model {}

impl Model {
    /// The model of these parts.
    pub(crate) fn from_parts(
        request: Rule,
        policy: Rule,
        relations: Vec<RoleShape>,
        effect: Effect,
        matcher_text: Text,
        matcher: Tree,
    ) -> Model
        requires { IsKept (parts_of
            request policy relations.items effect matcher_text (expression matcher)) }
        ensures { result ≡ parts_of
            request policy relations.items effect matcher_text (expression matcher) }
    {
        Model {
            request,
            policy,
            relations,
            effect,
            matcher_text,
            matcher,
        }
    }

    /// The columns of a request: 1 to 32 distinct identifiers.
    pub fn request_columns(&self) -> &Rule
        ensures value { result.now ≡ self.now.request }
        ensures columns { AreColumns result.now }
    {
        &self.request
    }

    /// The columns of a policy: 1 to 32 distinct identifiers.
    pub fn policy_columns(&self) -> &Rule
        ensures value { result.now ≡ self.now.policy }
        ensures columns { AreColumns result.now }
    {
        &self.policy
    }

    /// The role relations by rising number, 1 for `g` and 2 to 8 for `g2` to `g8`, their texts being compared byte by
    /// byte.
    pub fn relations(&self) -> &[RoleShape]
        ensures value { result.now ≡ self.now.relations }
        ensures relations { AreRelations result.now }
    {
        &self.relations
    }

    /// How the rules that match settle the answer. Where it is the priority of subjects, `g` is declared, and where `g`
    /// has domains, the policy has a column `dom`.
    pub fn effect(&self) -> Effect
        ensures { result ≡ self.now.effect }
    {
        self.effect
    }

    /// The rules of a policy stand by rising rank: the effect is priority, and the first policy column is named
    /// `priority`.
    pub fn is_ranked(&self) -> bool
        ensures { result ≡ is_ranked self.now.effect self.now.policy }
    {
        match self.effect {
            Effect::Priority => self.policy.field(0) == b"priority".as_slice(),
            Effect::AllowOverride
            | Effect::DenyOverride
            | Effect::AllowAndDeny
            | Effect::SubjectPriority => false,
        }
    }

    /// The matcher as it was written. All that a model keeps holds of this one.
    pub fn matcher_text(&self) -> &Text
        ensures value { result.now ≡ self.now.matcher_text }
        ensures matcher { IsMatcher result.now self.now.matcher }
        ensures part { IsPartOfLine result.now }
        ensures kept { IsKept self.now }
    {
        &self.matcher_text
    }

    /// The matcher as a tree. Each column that it names is declared, and each relation is declared and asked with its
    /// number of names.
    pub fn matcher(&self) -> &Tree
        ensures value { expression result.now ≡ self.now.matcher }
        ensures declared { first_undeclared
            self.now.request self.now.policy self.now.relations
            (uses (expression result.now)) ≡ None }
    {
        &self.matcher
    }
}
