ghost use Rattle.std.specs.Prelude.{◌≡◌, ◌++◌, ◌∷◌, [], IfOk, OnOk, length, map, option_and_then, option_map};
ghost use Rattle.matcher_read.specs.Expression.{expression, expressions_of};
ghost use Rattle.model_conf.specs.Shapes.{place_of};
ghost use Rattle.decision.specs.Plans.{asked_of_question, compared, conjuncts, first_fitting};
ghost use Rattle.decision.specs.Plans.{first_question, fitted, fitting_of, key_of, pair_of};
ghost use Rattle.decision.specs.Plans.{pairs_in, plan_by, policy_places, questioned, quiet_front};
ghost use Rattle.decision.specs.Helps.KeptPlans.{IsPlanOf, are_plain, asked_among, asked_in, asked_of, asked_seen};
ghost use Rattle.decision.specs.Helps.KeptPlans.{fitting_seen, pair_seen, plan_seen, seen};

use crate::parts::{asked_column, compared, fitted, is_quiet, questioned};
use matcher_read::{Operator, Tree};
use model_conf::Model;
use outside::NoMemory;
use perm_base::Rule;
use policy_index::{FrontColumn, RowKey};
use std::alloc::Global;

/// By what the rows of p are found that may match, by the places of columns; what it leaves out comes to no match.
pub(crate) struct KeptPlan {
    // The columns that are compared.
    pub(crate) pairs: Vec<EqualColumns>,
    pub(crate) by: By,
    // The key of the index that it wants.
    pub(crate) key: RowKey,
    // The request's columns that have to be texts, so that no part of the matcher which counts fails.
    pub(crate) names: Vec<Option<u32>>,
    // The first role question.
    pub(crate) question: Option<AskedColumns>,
    // Whether the matcher compares the pairs, asks this question, and does nothing else.
    pub(crate) plain: bool,
}

// Written out, so that a caller's proof sees one call and not the drop of each field.
impl Drop for KeptPlan {
    fn drop(self) {
        let KeptPlan {
            pairs: _pairs,
            by: _by,
            key: _key,
            names: _names,
            question: _question,
            plain: _plain,
        } = self;
    }
}

/// What a plan has beside the columns that are compared.
#[derive(Clone, Copy)]
pub(crate) enum By {
    /// Nothing.
    Texts,
    /// A pattern that a text of the request has to fit.
    Pattern(FittingColumns),
    /// A name of the request that has to have a role; no columns are compared then.
    Roles(AskedColumns),
}

/// A column of the request that equals one of the policy.
#[derive(Clone, Copy)]
pub(crate) struct EqualColumns {
    pub(crate) request: Option<u32>,
    pub(crate) policy: u32,
}

/// A column of the request that fits the pattern in one of the policy.
#[derive(Clone, Copy)]
pub(crate) struct FittingColumns {
    pub(crate) request: Option<u32>,
    pub(crate) pattern: FrontColumn,
}

/// A column of the request that has in a relation the role in one of the policy, in the domain in a column of the request.
#[derive(Clone, Copy)]
pub(crate) struct AskedColumns {
    pub(crate) relation: u8,
    pub(crate) request: Option<u32>,
    pub(crate) policy: u32,
    pub(crate) domain: Option<Option<u32>>,
}

/// The plan of a model, where it has one.
pub(crate) fn plan_of(alloc: Global, model: &Model) -> Result<Option<KeptPlan>, NoMemory>
    ensures { IfOk result (IsPlanOf model.now) }
{
    let mut parts = Vec::new(alloc);
    push_conjuncts(model.matcher(), &mut parts)?;
    let mut front = Vec::new(alloc);
    push_quiet(parts.as_slice(), &mut front)?;
    let mut pairs = Vec::new(alloc);
    push_pairs(front.as_slice(), model, &mut pairs)?;
    let fitting = first_fitting(front.as_slice(), model);
    let question = first_question(front.as_slice(), model);
    let Some(by) = by_of(pairs.as_slice(), fitting, question) else {
        return Ok(None);
    };
    let key = key_of(alloc, pairs.as_slice(), by)?;
    let mut names = Vec::new(alloc);
    push_asked(front.as_slice(), model.request_columns(), &mut names)?;
    let plain = are_plain(pairs.as_slice(), question, parts.as_slice());
    Ok(Some(KeptPlan {
        pairs,
        by,
        key,
        names,
        question,
        plain,
    }))
}

// Whether there are as many pairs as parts, or one less where there is a question: then each part is one of these.
fn are_plain(pairs: &[EqualColumns], question: Option<AskedColumns>, parts: &[&Tree]) -> bool
    ensures { result ≡ are_plain (length (map pair_seen pairs.now)) (option_map asked_seen question)
        (length (seen parts.now)) }
{
    match question {
        None => pairs.len() == parts.len(),
        Some(_) => pairs.len() < parts.len() && parts.len() - pairs.len() == 1,
    }
}

// What a plan has beside its pairs, where there is one.
fn by_of(
    pairs: &[EqualColumns],
    fitting: Option<FittingColumns>,
    question: Option<AskedColumns>,
) -> Option<By>
    ensures { option_map (plan_seen pairs.now) result
        ≡ plan_by (map pair_seen pairs.now) (option_map fitting_seen fitting)
        (option_map asked_seen question) }
{
    if let Some(fitting) = fitting {
        return Some(By::Pattern(fitting));
    }
    if !pairs.is_empty() {
        return Some(By::Texts);
    }
    match question {
        Some(asked) => Some(By::Roles(asked)),
        None => None,
    }
}

// The key of the index that a plan wants.
fn key_of(alloc: Global, pairs: &[EqualColumns], by: By) -> Result<RowKey, NoMemory>
    ensures { IfOk result (λ key. key ≡ key_of (plan_seen pairs.now by)) }
{
    match by {
        By::Texts => Ok(RowKey::new(policy_places(alloc, pairs)?, None)),
        By::Pattern(fitting) => Ok(RowKey::new(
            policy_places(alloc, pairs)?,
            Some(fitting.pattern),
        )),
        By::Roles(question) => RowKey::of_column(alloc, question.policy),
    }
}

// The policy's columns of pairs.
fn policy_places(alloc: Global, pairs: &[EqualColumns]) -> Result<Vec<u32>, NoMemory>
    ensures { IfOk result (λ places. places.items ≡ policy_places (map pair_seen pairs.now)) }
{
    let mut places = Vec::new(alloc);
    for pair in pairs {
        places.push(pair.policy)?;
    }
    Ok(places)
}

// Pushes the parts of a matcher that `&&` joins.
fn push_conjuncts<'a>(tree: &'a Tree, parts: &mut Vec<&'a Tree>) -> Result<(), NoMemory>
    ensures { OnOk result (seen parts.new.items
        ≡ seen parts.old.items ++ conjuncts (expression tree.now)) }
{
    match tree {
        Tree::Binary {
            operator: Operator::And,
            left,
            right,
            ..
        } => {
            push_conjuncts(left, parts)?;
            push_conjuncts(right, parts)
        }
        _ => push_part(tree, parts),
    }
}

// Pushes one part.
fn push_part<'a>(tree: &'a Tree, parts: &mut Vec<&'a Tree>) -> Result<(), NoMemory>
    ensures { OnOk result (seen parts.new.items ≡ seen parts.old.items ++ expression tree.now ∷ []) }
{
    parts.push(tree)?;
    Ok(())
}

// Pushes the parts before the first that may fail.
fn push_quiet<'a>(parts: &[&'a Tree], front: &mut Vec<&'a Tree>) -> Result<(), NoMemory>
    ensures { OnOk result (seen front.new.items
        ≡ seen front.old.items ++ quiet_front (seen parts.now)) }
{
    for part in parts {
        if !is_quiet(part) {
            return Ok(());
        }
        push_part(part, front)?;
    }
    Ok(())
}

// Pushes the columns that parts compare.
fn push_pairs(parts: &[&Tree], model: &Model, pairs: &mut Vec<EqualColumns>) -> Result<(), NoMemory>
    ensures { OnOk result (map pair_seen pairs.new.items
        ≡ map pair_seen pairs.old.items ++ pairs_in model.now (seen parts.now)) }
{
    for part in parts {
        if let Some(pair) = pair_of(part, model) {
            pairs.push(pair)?;
        }
    }
    Ok(())
}

// The places of the columns that a part compares.
fn pair_of(part: &Tree, model: &Model) -> Option<EqualColumns>
    ensures { option_map pair_seen result
        ≡ option_and_then (pair_of model.now) (compared (expression part.now)) }
{
    let columns = compared(part)?;
    let policy = model.policy_columns().place_of(columns.policy.bytes())?;
    let request = model.request_columns().place_of(columns.request.bytes());
    Some(EqualColumns { request, policy })
}

// The first pattern among parts.
fn first_fitting(parts: &[&Tree], model: &Model) -> Option<FittingColumns>
    ensures { option_map fitting_seen result ≡ first_fitting model.now (seen parts.now) }
{
    for part in parts {
        if let Some(fitting) = fitting_of(part, model) {
            return Some(fitting);
        }
    }
    None
}

// The places of the columns of a part's pattern.
fn fitting_of(part: &Tree, model: &Model) -> Option<FittingColumns>
    ensures { option_map fitting_seen result
        ≡ option_and_then (fitting_of model.now) (fitted (expression part.now)) }
{
    let found = fitted(part)?;
    let column = model
        .policy_columns()
        .place_of(found.columns.policy.bytes())?;
    let request = model
        .request_columns()
        .place_of(found.columns.request.bytes());
    let pattern = FrontColumn {
        column,
        kind: found.kind,
    };
    Some(FittingColumns { request, pattern })
}

// The first role question among parts.
fn first_question(parts: &[&Tree], model: &Model) -> Option<AskedColumns>
    ensures { option_map asked_seen result ≡ first_question model.now (seen parts.now) }
{
    for part in parts {
        if let Some(question) = question_of(part, model) {
            return Some(question);
        }
    }
    None
}

// The places of the columns of a part's role question.
fn question_of(part: &Tree, model: &Model) -> Option<AskedColumns>
    ensures { option_map asked_seen result
        ≡ option_and_then (asked_of_question model.now) (questioned (expression part.now)) }
{
    let found = questioned(part)?;
    let columns = model.request_columns();
    let policy = model
        .policy_columns()
        .place_of(found.columns.policy.bytes())?;
    let request = columns.place_of(found.columns.request.bytes());
    let domain = match found.domain {
        Some(column) => Some(columns.place_of(column.bytes())),
        None => None,
    };
    Some(AskedColumns {
        relation: found.relation,
        request,
        policy,
        domain,
    })
}

/// What the first role question of a matcher asks of each row, where it asks about a column of the request.
pub(crate) fn question_in(tree: &Tree, model: &Model) -> Option<AskedColumns> {
    match tree {
        Tree::Role { .. } => question_of(tree, model),
        Tree::Binary { left, right, .. } => match question_in(left, model) {
            Some(found) => Some(found),
            None => question_in(right, model),
        },
        _ => None,
    }
}

// Pushes the places of the request's columns that calls among parts name.
fn push_asked(parts: &[&Tree], columns: &Rule, names: &mut Vec<Option<u32>>) -> Result<(), NoMemory>
    ensures { OnOk result (names.new.items
        ≡ names.old.items ++ map (place_of columns.now) (asked_in (seen parts.now))) }
{
    for part in parts {
        push_arguments(part, columns, names)?;
    }
    Ok(())
}

// Pushes those that one part names.
fn push_arguments(tree: &Tree, columns: &Rule, names: &mut Vec<Option<u32>>) -> Result<(), NoMemory>
    ensures { OnOk result (names.new.items
        ≡ names.old.items ++ map (place_of columns.now) (asked_of (expression tree.now))) }
{
    match tree {
        Tree::Role { arguments, .. } | Tree::Call { arguments, .. } => {
            push_columns(arguments, columns, names)
        }
        _ => Ok(()),
    }
}

fn push_columns(
    trees: &[Tree],
    columns: &Rule,
    names: &mut Vec<Option<u32>>,
) -> Result<(), NoMemory>
    ensures { OnOk result (names.new.items ≡ names.old.items
        ++ map (place_of columns.now) (asked_among (expressions_of (map expression trees.now)))) }
{
    for tree in trees {
        if let Some(column) = asked_column(tree) {
            names.push(columns.place_of(column.bytes()))?;
        }
    }
    Ok(())
}
