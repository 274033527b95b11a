ghost use Rattle.std.specs.Prelude.{◌≡◌, ◌<◌, length};
ghost use Rattle.std.specs.Char.{is_ascii_digit};
ghost use Rattle.std.specs.List.{list_all};
ghost use Rattle.perm_base.specs.LineEnds.{AreFields};
ghost use Rattle.script_read.specs.Items.{count_of, filter_of, name_of, names_of, whole_number_of};
ghost use Rattle.script_read.specs.Items.{numeral, relation_of, rows_of, rule_of, table_of};

use crate::fault::LineCause;
use outside::Text;
use perm_base::{Rule, TableId};

/// A table, and the fields of a rule.
pub(crate) fn rule_of(mut fields: Vec<Text>) -> Result<(TableId, Rule), LineCause>
    requires rule { AreFields fields.items }
    requires some { 0 < length fields.items }
    ensures { result ≡ rule_of fields.items }
{
    let name = fields.remove(0);
    if fields.is_empty() {
        return Err(LineCause::Fields);
    }
    let table = table_of(&name)?;
    Ok((table, Rule::from_vec(fields)))
}

/// A table, a place, and values from there on.
pub(crate) fn filter_of(mut fields: Vec<Text>) -> Result<(TableId, u32, Rule), LineCause>
    requires rule { AreFields fields.items }
    ensures { result ≡ filter_of fields.items }
{
    if fields.len() < 3 {
        return Err(LineCause::Fields);
    }
    let table = table_of(&fields[0])?;
    let at = numeral(&fields[1])?;
    fields.drain(..2);
    Ok((table, at, Rule::from_vec(fields)))
}

/// A table alone, or with a place and values.
pub(crate) fn rows_of(mut fields: Vec<Text>) -> Result<(TableId, u32, Rule), LineCause>
    requires rule { AreFields fields.items }
    ensures { result ≡ rows_of fields.items }
{
    if fields.len() != 1 {
        return filter_of(fields);
    }
    let name = fields.remove(0);
    let table = table_of(&name)?;
    Ok((table, 0, Rule::from_vec(fields)))
}

/// A role relation and a name, or these and a domain.
pub(crate) fn names_of(fields: Vec<Text>) -> Result<(u8, Text, Option<Text>), LineCause>
    ensures { result ≡ names_of fields.items }
{
    let mut fields = fields.into_iter();
    let (Some(relation), Some(name)) = (fields.next(), fields.next()) else {
        return Err(LineCause::Fields);
    };
    let domain = fields.next();
    let None = fields.next() else {
        return Err(LineCause::Fields);
    };
    let number = relation_of(&relation)?;
    Ok((number, name, domain))
}

/// One field.
pub(crate) fn name_of(mut fields: Vec<Text>) -> Result<Text, LineCause>
    ensures { result ≡ name_of fields.items }
{
    if fields.len() != 1 {
        return Err(LineCause::Fields);
    }
    Ok(fields.remove(0))
}

/// One field, a number.
pub(crate) fn count_of(fields: Vec<Text>) -> Result<u32, LineCause>
    ensures { result ≡ count_of fields.items }
{
    let text = name_of(fields)?;
    numeral(&text)
}

// The table of a name.
fn table_of(name: &Text) -> Result<TableId, LineCause>
    ensures { result ≡ table_of name.now }
{
    TableId::named(name.as_str()).ok_or(LineCause::Table)
}

// The number of the role relation of a name.
fn relation_of(name: &Text) -> Result<u8, LineCause>
    ensures { result ≡ relation_of name.now }
{
    match TableId::named(name.as_str()) {
        Some(TableId::G(number)) => Ok(number),
        Some(TableId::P) => Err(LineCause::Table),
        None => Err(LineCause::Table),
    }
}

// The number that a text is.
fn numeral(text: &Text) -> Result<u32, LineCause>
    ensures { result ≡ numeral text.now }
{
    whole_number_of(text.as_str()).ok_or(LineCause::Number)
}

// The number of one to nine digits.
fn whole_number_of(text: &str) -> Option<u32>
    ensures { result ≡ whole_number_of text.now }
{
    if text.is_empty() || text.len() > 9 || !are_digits(text) {
        return None;
    }
    text.parse().ok()
}

fn are_digits(text: &str) -> bool
    ensures { result ≡ list_all is_ascii_digit text.now }
{
    text.as_bytes().iter().all(|byte| byte.is_ascii_digit())
}
