ghost use Rattle.std.specs.Prelude.{◌≡◌, ◌↔◌, Contains, IfOk, IsTrue, MatchOption, map};
ghost use Rattle.model_conf.specs.Columns.{AreColumns, AreDistinct, AreNames, columns_in};

use outside::{NoMemory, Text};
use perm_base::Rule;
use std::alloc::Global;
use text_parts::{cut_at, is_identifier, trimmed};

// The greatest number of columns.
const MOST_COLUMNS: usize = 32;

/// Reads a text as columns: 1 to 32 distinct identifiers, joined by commas, with free blanks round each.
pub(crate) fn read_columns(alloc: Global, text: &str) -> Result<Option<Rule>, NoMemory>
    ensures { IfOk result (λ read. MatchOption read
        (¬ (AreColumns (columns_in text.now)))
        (λ rule. AreColumns (columns_in text.now) × (rule ≡ columns_in text.now))) }
{
    let names = cut_columns(alloc, text)?;
    if !are_columns(&names) {
        return Ok(None);
    }
    let rule = rule_of(alloc, &names)?;
    Ok(Some(rule))
}

// The parts between commas, without the blanks at their ends.
fn cut_columns(alloc: Global, text: &str) -> Result<Vec<&str>, NoMemory>
    ensures { IfOk result (λ names. map (λ name. name.now) names.items ≡ columns_in text.now) }
{
    let mut names = Vec::new(alloc);
    let mut rest = text;
    while let Some((name, behind)) = cut_at(rest, b',') {
        names.push(trimmed(name))?;
        rest = behind;
    }
    names.push(trimmed(rest))?;
    Ok(names)
}

// The columns as a rule.
fn rule_of(alloc: Global, names: &[&str]) -> Result<Rule, NoMemory>
    requires { AreColumns (map (λ name. name.now) names.now) }
    ensures { IfOk result (λ rule. rule ≡ map (λ name. name.now) names.now) }
{
    let mut fields = Vec::new(alloc);
    for name in names {
        fields.push(Text::from_str(alloc, name)?)?;
    }
    Ok(Rule::from_vec(fields))
}

fn are_columns(names: &[&str]) -> bool
    ensures { IsTrue result ↔ AreColumns (map (λ name. name.now) names.now) }
{
    if names.is_empty() || names.len() > MOST_COLUMNS {
        return false;
    }
    are_identifiers(names) && are_distinct(names)
}

fn are_identifiers(names: &[&str]) -> bool
    ensures { IsTrue result ↔ AreNames (map (λ name. name.now) names.now) }
{
    names.iter().all(|name| is_identifier(name))
}

fn are_distinct(names: &[&str]) -> bool
    ensures { IsTrue result ↔ AreDistinct (map (λ name. name.now) names.now) }
{
    for (at, name) in names.iter().enumerate() {
        if has_name(&names[..at], name) {
            return false;
        }
    }
    true
}

fn has_name(names: &[&str], name: &str) -> bool
    ensures { IsTrue result ↔ Contains (map (λ n. n.now) names.now) name.now }
{
    names.iter().any(|n| *n == name)
}
