ghost use Rattle.std.specs.Prelude.{◌≡◌, IfOk, map, option_map};
ghost use Rattle.matcher_read.specs.Expression as tree;
ghost use Rattle.matcher_read.specs.Expression.{expression};
ghost use Rattle.matcher_read.specs.Helps.Machine.{name_operand};
ghost use Rattle.matcher_read.specs.Helps.TokenLists.{pieces};
ghost use Rattle.matcher_read.specs.Helps.NameParts.{policy_of, request_of, truth_of};

use crate::tree::Tree;
use outside::{NoMemory, Text};
use std::alloc::Global;

/// The operand that a name is: `true`, `false`, a column of the request with attributes, or a column of the policy.
pub(crate) fn operand_by(alloc: Global, at: u32, name: &str) -> Result<Option<Tree>, NoMemory>
    ensures { IfOk result
        (λ found. option_map expression found ≡ name_operand at (pieces name.now)) }
{
    let Some((first, rest)) = name.split_once('.') else {
        return Ok(truth_by(at, name));
    };
    if first == "r" {
        return Ok(Some(request_by(alloc, at, rest)?));
    }
    if first == "p" {
        return policy_by(alloc, at, rest);
    }
    Ok(None)
}

// The truth that a word says.
fn truth_by(at: u32, name: &str) -> Option<Tree>
    ensures { option_map expression result ≡ truth_of at name.now }
{
    match name {
        "true" => Some(Tree::Truth { at, truth: true }),
        "false" => Some(Tree::Truth { at, truth: false }),
        _ => None,
    }
}

// The column of the request and the attributes that the names behind `r.` say.
fn request_by(alloc: Global, at: u32, names: &str) -> Result<Tree, NoMemory>
    ensures { IfOk result (λ made. expression made ≡ request_of at (pieces names.now)) }
{
    let Some((column, attributes)) = names.split_once('.') else {
        return request(alloc, at, names, Vec::new(alloc));
    };
    let path = path_by(alloc, attributes)?;
    request(alloc, at, column, path)
}

// The attributes that names joined by dots say.
fn path_by(alloc: Global, names: &str) -> Result<Vec<Text>, NoMemory>
    ensures { IfOk result (λ path. path.items ≡ pieces names.now) }
{
    let mut path = Vec::new(alloc);
    for name in names.split('.') {
        path.push(Text::from_str(alloc, name)?)?;
    }
    Ok(path)
}

// The column of the policy that the name behind `p.` says, where it stands alone.
fn policy_by(alloc: Global, at: u32, names: &str) -> Result<Option<Tree>, NoMemory>
    ensures { IfOk result (λ found. option_map expression found ≡ policy_of at (pieces names.now)) }
{
    let None = names.split_once('.') else {
        return Ok(None);
    };
    Ok(Some(policy(alloc, at, names)?))
}

// A column of the request with attributes.
fn request(alloc: Global, at: u32, column: &str, path: Vec<Text>) -> Result<Tree, NoMemory>
    ensures { IfOk result (λ made. expression made ≡ tree.request at column.now path.items) }
{
    Ok(Tree::Request {
        at,
        column: Text::from_str(alloc, column)?,
        path,
    })
}

// A column of the policy.
fn policy(alloc: Global, at: u32, column: &str) -> Result<Tree, NoMemory>
    ensures { IfOk result (λ made. expression made ≡ tree.policy at column.now) }
{
    Ok(Tree::Policy {
        at,
        column: Text::from_str(alloc, column)?,
    })
}
