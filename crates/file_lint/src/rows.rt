ghost use Rattle.std.specs.Prelude.{◌≡◌, IfOk, MatchBool, OnOk};
ghost use Rattle.ip_match.specs.Blocks.{IsBlock};
ghost use Rattle.ip_match.specs.declared.block.Block as ip;
ghost use Rattle.matcher_read.specs.Expression.{Expression};
ghost use Rattle.model_conf.specs.RuleText.{IsNoRuleText, IsRuleText};
ghost use Rattle.model_conf.specs.ModelText.{ModelParts};
ghost use Rattle.file_lint.specs.Helps.Rows.{AreFound, FindsMore, row_line};
ghost use Rattle.file_lint.specs.RowWarnings.{HeldFinds};
ghost use Rattle.file_lint.specs.declared.nodes.Held.TheVariants as held;

use crate::finding::Finding;
use crate::model_warnings::BRACE_WORDS;
use crate::nodes::{Held, Looked};
use crate::row::{Row, field, warning_in};
use crate::texts::quoted_and;
use ip_match::read_block;
use model_conf::{Model, RuleTextFault, read_rule_text};
use outside::NoMemory;
use perm_base::Rule;
use std::alloc::Global;
use text_parts::has_byte;

/// Pushes what the fields of a rule of p surprise by in the columns that the matcher takes for something.
pub(crate) fn push_looked(
    alloc: Global,
    model: &Model,
    looked: &[Looked],
    row: &Row<'_>,
    rule: &Rule,
    found: &mut Vec<Finding>,
) -> Result<(), NoMemory>
    ensures { OnOk result (FindsMore
        (AreFound model.now (row_line row.now) rule.now looked.now)
        found.old.items found.new.items) }
{
    let mut rest = looked;
    while let Some((look, others)) = rest.split_first() {
        push_held(alloc, model, *look, row, field(rule, look.at), found)?;
        rest = others;
    }
    Ok(())
}

// Pushes what a field surprises by that the matcher takes for something.
fn push_held(
    alloc: Global,
    model: &Model,
    look: Looked,
    row: &Row<'_>,
    text: &str,
    found: &mut Vec<Finding>,
) -> Result<(), NoMemory>
    ensures { OnOk result (FindsMore (HeldFinds model.now (row_line row.now) look.at text.now look.held)
        found.old.items found.new.items) }
{
    match look.held {
        Held::Block => push_block(alloc, look.at, row, text, found),
        Held::KeyPattern => push_key_pattern(alloc, look.at, row, text, found),
        Held::RuleText => push_rule_text(alloc, model, look.at, row, text, found),
    }
}

// Pushes what a field surprises by that has to be an address or a block.
fn push_block(
    alloc: Global,
    at: u32,
    row: &Row<'_>,
    text: &str,
    found: &mut Vec<Finding>,
) -> Result<(), NoMemory>
    ensures { (model : ModelParts) → OnOk result (FindsMore
        (HeldFinds model (row_line row.now) at text.now held.Block) found.old.items found.new.items) }
{
    if is_block(text) {
        return Ok(());
    }
    let words = quoted_and(
        alloc,
        text,
        " is no address and no block: ipMatch fails with it",
    )?;
    found.push(warning_in(row, u64::from(at) + 1, words))?;
    Ok(())
}

// Pushes what a field surprises by that has to be a pattern of `keyMatch2`.
fn push_key_pattern(
    alloc: Global,
    at: u32,
    row: &Row<'_>,
    text: &str,
    found: &mut Vec<Finding>,
) -> Result<(), NoMemory>
    ensures { (model : ModelParts) → OnOk result (FindsMore
        (HeldFinds model (row_line row.now) at text.now held.KeyPattern) found.old.items found.new.items) }
{
    if !has_byte(text, b'{') {
        return Ok(());
    }
    let words = String::from_str(alloc, BRACE_WORDS)?;
    found.push(warning_in(row, u64::from(at) + 1, words))?;
    Ok(())
}

// Pushes what a field surprises by that has to say a rule.
fn push_rule_text(
    alloc: Global,
    model: &Model,
    at: u32,
    row: &Row<'_>,
    text: &str,
    found: &mut Vec<Finding>,
) -> Result<(), NoMemory>
    ensures { OnOk result (FindsMore (HeldFinds model.now (row_line row.now) at text.now held.RuleText)
        found.old.items found.new.items) }
{
    let says = is_rule_text(alloc, model, text)?;
    if says {
        return Ok(());
    }
    let words = quoted_and(alloc, text, " says no rule: eval fails with it")?;
    found.push(warning_in(row, u64::from(at) + 1, words))?;
    Ok(())
}

// The text writes an address or a block.
fn is_block(text: &str) -> bool
    ensures { MatchBool result
        ((block : ip.Block) × IsBlock text.now block)
        ((block : ip.Block) → ¬ (IsBlock text.now block)) }
{
    read_block(text.as_bytes()).is_some()
}

// The text says a rule of the model.
fn is_rule_text(alloc: Global, model: &Model, text: &str) -> Result<bool, NoMemory>
    ensures { IfOk result (λ is. MatchBool is
        ((e : Expression) × IsRuleText model.now text.now e)
        (IsNoRuleText model.now text.now)) }
{
    let Err(fault) = read_rule_text(alloc, model, text) else {
        return Ok(true);
    };
    match fault {
        RuleTextFault::NoRule => Ok(false),
        RuleTextFault::NoMemory => Err(NoMemory),
    }
}
