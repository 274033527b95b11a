ghost use Rattle.std.specs.Prelude.{◌≡◌, ◌||◌, ◌++◌, IfOk, IsUtf8, OnOk, flat_map, map, option_map};
ghost use Rattle.perm_base.specs.FieldLine.{begins_with};
ghost use Rattle.matcher_read.specs.Expression.{expression, expressions_of};
ghost use Rattle.file_lint.specs.ModelWarnings.{column_warnings, has_brace_in, has_class, has_class_in, is_class, is_class_here, is_lower_class, is_text, is_unranked, is_upper_class, model_warnings, node_warnings, second_is, told_if, told_of, told_of_call, told_of_operator, warning_at};
ghost use Rattle.file_lint.specs.Helps.Trees.{seen};

use crate::finding::{Finding, Level};
use crate::nodes::{nodes_of, second_of};
use crate::places::Place;
use crate::values::place_of_value;
use matcher_read::{Function, Operator, Tree};
use model_conf::Model;
use outside::{NoMemory, Text};
use std::alloc::Global;
use text_parts::has_byte;

const PLUS_WORDS: &str = "`+` adds whole numbers: of a text it fails, and does not join";

const CLASS_WORDS: &str =
    "`\\w`, `\\d` and `\\b` are those of Unicode here, and those of ASCII in Casbin for Go";

/// What is told of `{` in a pattern of `keyMatch2`.
pub(crate) const BRACE_WORDS: &str = "`{` is no sign of keyMatch2: write `:name`, or ask keyMatch3";

const PRIORITY_WORDS: &str =
    "the column priority ranks no rules: it does where it is the first, and the effect is `priority(p.eft) || deny`";

/// The warnings of a model, which these bytes say.
#[tactic(auto, unfolding(crate::specs::ModelWarnings::model_warnings))]
pub(crate) fn model_warnings(
    alloc: Global,
    bytes: &[u8],
    model: &Model,
) -> Result<Vec<Finding>, NoMemory>
    requires { IsUtf8 bytes.now }
    ensures { IfOk result (λ found. found.items ≡ model_warnings bytes.now model.now) }
{
    let Ok(text) = str::from_utf8(bytes) else {
        unreachable!()
    };
    let mut found = Vec::new(alloc);
    push_column_warnings(alloc, text, model, &mut found)?;
    let nodes = nodes_of(alloc, model.matcher())?;
    push_all_warnings(alloc, text, nodes.as_slice(), &mut found)?;
    Ok(found)
}

// Pushes the warnings of nodes.
fn push_all_warnings(
    alloc: Global,
    text: &str,
    nodes: &[&Tree],
    found: &mut Vec<Finding>,
) -> Result<(), NoMemory>
    ensures { OnOk result (found.new.items
        ≡ found.old.items ++ flat_map (node_warnings text.now) (seen nodes.now)) }
{
    for node in nodes {
        push_node_warnings(alloc, text, node, found)?;
    }
    Ok(())
}

fn push_column_warnings(
    alloc: Global,
    text: &str,
    model: &Model,
    found: &mut Vec<Finding>,
) -> Result<(), NoMemory>
    ensures { OnOk result (found.new.items
        ≡ found.old.items ++ column_warnings text.now model.now) }
{
    if !is_unranked(model) {
        return Ok(());
    }
    let at = place_of_value(text, "p", 0);
    let warning = warning_at(alloc, &at, PRIORITY_WORDS)?;
    found.push(warning)?;
    Ok(())
}

// A column of p is named `priority`, and p is not ranked.
fn is_unranked(model: &Model) -> bool
    ensures { result ≡ is_unranked model.now }
{
    model.policy_columns().place_of(b"priority").is_some() && !model.is_ranked()
}

// Pushes the warnings of a node.
fn push_node_warnings(
    alloc: Global,
    text: &str,
    node: &Tree,
    found: &mut Vec<Finding>,
) -> Result<(), NoMemory>
    ensures { OnOk result (found.new.items
        ≡ found.old.items ++ node_warnings text.now (expression node.now)) }
{
    let Some((at, words)) = words_of(node) else {
        return Ok(());
    };
    let place = place_of_value(text, "m", at.saturating_sub(1));
    let warning = warning_at(alloc, &place, words)?;
    found.push(warning)?;
    Ok(())
}

// Where a node surprises, and how.
fn words_of(node: &Tree) -> Option<(u32, &'static str)>
    ensures { option_map (λ told. (told.0, told.1.now)) result ≡ told_of (expression node.now) }
{
    match node {
        Tree::Binary {
            at,
            operator,
            left,
            right,
        } => told_of_operator(*at, *operator, is_text_beside(left, right)),
        Tree::Call {
            at,
            function,
            arguments,
        } => told_of_call(*at, *function, arguments),
        _ => None,
    }
}

// The same of an operator, by whether one of its sides is a text.
fn told_of_operator(at: u32, operator: Operator, texts: bool) -> Option<(u32, &'static str)>
    ensures { option_map (λ told. (told.0, told.1.now)) result ≡ told_of_operator at operator texts }
{
    match operator {
        Operator::Plus => told_if(texts, at, PLUS_WORDS),
        _ => None,
    }
}

// The same of a call.
fn told_of_call(at: u32, function: Function, arguments: &[Tree]) -> Option<(u32, &'static str)>
    ensures { option_map (λ told. (told.0, told.1.now)) result
        ≡ told_of_call at function (expressions_of (map expression arguments.now)) }
{
    match function {
        Function::RegexMatch => told_if(second_has_class(arguments), at, CLASS_WORDS),
        Function::KeyMatch2 => told_if(second_has_brace(arguments), at, BRACE_WORDS),
        _ => None,
    }
}

fn told_if(is: bool, at: u32, words: &'static str) -> Option<(u32, &'static str)>
    ensures { option_map (λ told. (told.0, told.1.now)) result ≡ told_if is at words.now }
{
    if is { Some((at, words)) } else { None }
}

// One of both is a text.
fn is_text_beside(left: &Tree, right: &Tree) -> bool
    ensures { result ≡ (is_text (expression left.now) || is_text (expression right.now)) }
{
    is_text(left) || is_text(right)
}

fn is_text(tree: &Tree) -> bool
    ensures { result ≡ is_text (expression tree.now) }
{
    match tree {
        Tree::Text { .. } => true,
        _ => false,
    }
}

// The second argument is a text that holds a class.
fn second_has_class(arguments: &[Tree]) -> bool
    ensures { result ≡ second_is has_class_in (expressions_of (map expression arguments.now)) }
{
    match second_of(arguments) {
        Some(second) => has_class_in(second),
        None => false,
    }
}

// The second argument is a text that holds `{`.
fn second_has_brace(arguments: &[Tree]) -> bool
    ensures { result ≡ second_is has_brace_in (expressions_of (map expression arguments.now)) }
{
    match second_of(arguments) {
        Some(second) => has_brace_in(second),
        None => false,
    }
}

// The node is a text that holds `{`.
fn has_brace_in(tree: &Tree) -> bool
    ensures { result ≡ has_brace_in (expression tree.now) }
{
    match tree {
        Tree::Text { text, .. } => has_byte(text.as_str(), b'{'),
        _ => false,
    }
}

// The node is a text that holds a class.
fn has_class_in(tree: &Tree) -> bool
    ensures { result ≡ has_class_in (expression tree.now) }
{
    match tree {
        Tree::Text { text, .. } => has_class(text.bytes()),
        _ => false,
    }
}

fn has_class(text: &[u8]) -> bool
    ensures { result ≡ has_class text.now }
{
    let mut rest = text;
    while let Some((byte, behind)) = rest.split_first() {
        if is_class_here(*byte, behind) {
            return true;
        }
        rest = behind;
    }
    false
}

// A class stands here: its sign, and behind it the letter.
fn is_class_here(byte: u8, behind: &[u8]) -> bool
    ensures { result ≡ is_class_here byte behind.now }
{
    byte == b'\\' && begins_with_class(behind)
}

fn begins_with_class(text: &[u8]) -> bool
    ensures { result ≡ begins_with is_class text.now }
{
    let Some((byte, _)) = text.split_first() else {
        return false;
    };
    is_class(*byte)
}

fn is_class(byte: u8) -> bool
    ensures { result ≡ is_class byte }
{
    is_lower_class(byte) || is_upper_class(byte)
}

fn is_lower_class(byte: u8) -> bool
    ensures { result ≡ is_lower_class byte }
{
    byte == b'w' || byte == b'd' || byte == b'b'
}

fn is_upper_class(byte: u8) -> bool
    ensures { result ≡ is_upper_class byte }
{
    byte == b'W' || byte == b'D' || byte == b'B'
}

/// A warning with these words at a place.
pub(crate) fn warning_at(alloc: Global, at: &Place, words: &str) -> Result<Finding, NoMemory>
    ensures { IfOk result (λ found. found ≡ warning_at at.now words.now) }
{
    Ok(Finding {
        line: at.line,
        column: at.column,
        level: Level::Warning,
        text: Text::from_str(alloc, words)?,
    })
}
