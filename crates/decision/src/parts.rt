ghost use Rattle.std.specs.Prelude.{◌≡◌, ◌&&◌, ◌==◌, map, option_copied, option_map};
ghost use Rattle.matcher_read.specs.Expression.{count, expression, expressions_of};
ghost use Rattle.decision.specs.Plans.{are_asked, are_names, asked_column, both_columns, compared};
ghost use Rattle.decision.specs.Plans.{fitted, fitted_pair, is_name, is_operand, is_quiet, kind_of};
ghost use Rattle.decision.specs.Plans.{policy_column, question, questioned};
ghost use Rattle.decision.specs.Helps.KeptPlans.{columns_seen, fitted_seen, question_seen};

use matcher_read::{Function, Operator, Tree};
use outside::Text;
use policy_index::FrontKind;

/// A column of the request and one of the policy.
#[derive(Clone, Copy)]
pub(crate) struct Columns<'a> {
    pub(crate) request: &'a Text,
    pub(crate) policy: &'a Text,
}

/// A pattern that a text has to fit.
#[derive(Clone, Copy)]
pub(crate) struct FittedTree<'a> {
    pub(crate) called: Function,
    pub(crate) kind: FrontKind,
    pub(crate) columns: Columns<'a>,
}

/// A role that a name has to have.
#[derive(Clone, Copy)]
pub(crate) struct QuestionTree<'a> {
    pub(crate) relation: u8,
    pub(crate) columns: Columns<'a>,
    pub(crate) domain: Option<&'a Text>,
}

/// The columns of the request and of the policy that an equality compares.
pub(crate) fn compared(tree: &Tree) -> Option<Columns<'_>>
    ensures { option_map columns_seen result ≡ compared (expression tree.now) }
{
    match tree {
        Tree::Binary {
            operator: Operator::Equal,
            left,
            right,
            ..
        } => match both_columns(left, right) {
            Some(columns) => Some(columns),
            None => both_columns(right, left),
        },
        _ => None,
    }
}

// A column of the request and one of the policy.
fn both_columns<'a>(one: &'a Tree, other: &'a Tree) -> Option<Columns<'a>>
    ensures { option_map columns_seen result
        ≡ both_columns (expression one.now) (expression other.now) }
{
    let request = asked_column(one)?;
    let policy = policy_column(other)?;
    Some(Columns { request, policy })
}

/// The column of the request that a tree is, without a path.
pub(crate) fn asked_column(tree: &Tree) -> Option<&Text>
    ensures { option_copied result ≡ asked_column (expression tree.now) }
{
    match tree {
        Tree::Request { column, path, .. } if path.is_empty() => Some(column),
        _ => None,
    }
}

// The column of the policy that a tree is.
fn policy_column(tree: &Tree) -> Option<&Text>
    ensures { option_copied result ≡ policy_column (expression tree.now) }
{
    match tree {
        Tree::Policy { column, .. } => Some(column),
        _ => None,
    }
}

/// A text that has to fit a pattern, by a function whose patterns have fronts.
pub(crate) fn fitted(tree: &Tree) -> Option<FittedTree<'_>>
    ensures { option_map fitted_seen result ≡ fitted (expression tree.now) }
{
    let Tree::Call {
        function,
        arguments,
        ..
    } = tree
    else {
        return None;
    };
    match arguments.as_slice() {
        [key, pattern] => fitted_pair(*function, key, pattern),
        _ => None,
    }
}

fn fitted_pair<'a>(called: Function, key: &'a Tree, pattern: &'a Tree) -> Option<FittedTree<'a>>
    ensures { option_map fitted_seen result
        ≡ fitted_pair called (expression key.now) (expression pattern.now) }
{
    let kind = kind_of(called)?;
    let columns = both_columns(key, pattern)?;
    Some(FittedTree {
        called,
        kind,
        columns,
    })
}

/// A name that has to have a role.
pub(crate) fn questioned(tree: &Tree) -> Option<QuestionTree<'_>>
    ensures { option_map question_seen result ≡ questioned (expression tree.now) }
{
    let Tree::Role {
        relation,
        arguments,
        ..
    } = tree
    else {
        return None;
    };
    match arguments.as_slice() {
        [name, role] => question(*relation, name, role, None),
        [name, role, domain] => {
            let domain = asked_column(domain)?;
            question(*relation, name, role, Some(domain))
        }
        _ => None,
    }
}

fn question<'a>(
    relation: u8,
    name: &'a Tree,
    role: &'a Tree,
    domain: Option<&'a Text>,
) -> Option<QuestionTree<'a>>
    ensures { option_map question_seen result ≡ option_map
        (question relation (option_copied domain.entry))
        (both_columns (expression name.now) (expression role.now)) }
{
    let columns = both_columns(name, role)?;
    Some(QuestionTree {
        relation,
        columns,
        domain,
    })
}

// The kind of a function's patterns, where they have fronts.
fn kind_of(function: Function) -> Option<FrontKind>
    ensures { result ≡ kind_of function }
{
    match function {
        Function::KeyMatch => Some(FrontKind::Star),
        Function::KeyMatch2 => Some(FrontKind::Colon),
        Function::KeyMatch3 | Function::KeyMatch4 => Some(FrontKind::Brace),
        Function::KeyMatch5 => Some(FrontKind::CutBrace),
        Function::GlobMatch => Some(FrontKind::Glob),
        Function::RegexMatch
        | Function::IpMatch
        | Function::KeyGet
        | Function::KeyGet2
        | Function::KeyGet3 => None,
    }
}

/// Whether a part cannot fail where its names are texts.
pub(crate) fn is_quiet(tree: &Tree) -> bool
    ensures { result ≡ is_quiet (expression tree.now) }
{
    match tree {
        Tree::Binary {
            operator: Operator::Equal,
            left,
            right,
            ..
        } => is_operand(left) && is_operand(right),
        Tree::Role { arguments, .. } => are_asked(arguments),
        Tree::Call {
            function,
            arguments,
            ..
        } => kind_of(*function).is_some() && are_two_names(arguments),
        _ => false,
    }
}

// Whether these are two names.
fn are_two_names(trees: &[Tree]) -> bool
    ensures { result ≡ (count (expressions_of (map expression trees.now)) == 2
        && are_names (expressions_of (map expression trees.now))) }
{
    trees.len() == 2 && are_names(trees)
}

// Whether a tree is a literal, a column of the request without a path, or a column of the policy.
fn is_operand(tree: &Tree) -> bool
    ensures { result ≡ is_operand (expression tree.now) }
{
    match tree {
        Tree::Whole { .. } | Tree::Truth { .. } => true,
        _ => is_name(tree),
    }
}

// Whether these are two or three names.
fn are_asked(trees: &[Tree]) -> bool
    ensures { result ≡ are_asked (expressions_of (map expression trees.now)) }
{
    if trees.len() < 2 {
        return false;
    }
    if trees.len() > 3 {
        return false;
    }
    are_names(trees)
}

// Whether each of these is a text, a column of the request without a path, or a column of the policy.
fn are_names(trees: &[Tree]) -> bool
    ensures { result ≡ are_names (expressions_of (map expression trees.now)) }
{
    for tree in trees {
        if !is_name(tree) {
            return false;
        }
    }
    true
}

fn is_name(tree: &Tree) -> bool
    ensures { result ≡ is_name (expression tree.now) }
{
    match tree {
        Tree::Text { .. } | Tree::Policy { .. } => true,
        Tree::Request { path, .. } => path.is_empty(),
        _ => false,
    }
}
