ghost use Rattle.std.specs.Prelude.{◌≡◌, ◌<◌, ◌∷◌, ℕ, List, IfNone, IfOk, IfSome, MatchOption, length};
ghost use Rattle.perm_base.specs.LineEnds.{AreFields};
ghost use Rattle.perm_base.specs.declared.shapes.TableId as declared;
ghost use Rattle.policy_table.specs.Tables.{Fields};
ghost use Rattle.version_log.specs.EditText.{sign_byte};
ghost use Rattle.version_log.specs.Helps.Items.{IsNamed, IsPrinted, IsReadAs, IsSpelled};
ghost use Rattle.version_log.specs.declared.item.Sign as declared_sign;

use crate::item::{EditItem, Sign};
use outside::{NoMemory, Text};
use perm_base::{FieldFault, Rule, TableId, print_fields, read_fields};
use std::alloc::Global;

const MOST_FIELDS: usize = 32;

/// What a line says, if it is spelled as it is printed.
pub(crate) fn read_item(alloc: Global, line: &[u8]) -> Result<Option<EditItem>, NoMemory>
    ensures { IfOk result (IsReadAs line.now) }
{
    let Ok(line) = str::from_utf8(line) else {
        return Ok(None);
    };
    if line == "." {
        return Ok(Some(EditItem::End));
    }
    let Some((sign, text)) = cut_sign(line) else {
        return Ok(None);
    };
    match read_rule(alloc, text)? {
        Some((table, rule)) => Ok(Some(EditItem::Signed { sign, table, rule })),
        None => Ok(None),
    }
}

// The sign by which a line begins, and what stands behind it and its blank.
fn cut_sign(line: &str) -> Option<(Sign, &str)>
    ensures none { IfNone result ((sign : declared_sign.Sign) (rest : List ℕ)
        → ¬ (line.now ≡ sign_byte sign ∷ 32 ∷ rest)) }
    ensures parts { IfSome result (λ cut. line.now ≡ sign_byte cut.0 ∷ 32 ∷ cut.1.now) }
{
    if let Some(rest) = behind_sign(line, Sign::Inserted) {
        return Some((Sign::Inserted, rest));
    }
    if let Some(rest) = behind_sign(line, Sign::Removed) {
        return Some((Sign::Removed, rest));
    }
    if let Some(rest) = behind_sign(line, Sign::Old) {
        return Some((Sign::Old, rest));
    }
    let rest = behind_sign(line, Sign::New)?;
    Some((Sign::New, rest))
}

// What stands behind a sign and its blank, if the line begins so.
fn behind_sign(line: &str, sign: Sign) -> Option<&str>
    ensures { MatchOption result ((rest : List ℕ) → ¬ (line.now ≡ sign_byte sign ∷ 32 ∷ rest))
        (λ rest. line.now ≡ sign_byte sign ∷ 32 ∷ rest.now) }
{
    line.strip_prefix(sign.text())
}

// The table and the rule of a text that is printed so.
fn read_rule(alloc: Global, text: &str) -> Result<Option<(TableId, Rule)>, NoMemory>
    ensures none { IfOk result (λ found. IfNone found ((table : declared.TableId) (rule : Fields)
        → ¬ (IsSpelled text.now table rule))) }
    ensures found { IfOk result (λ found. IfSome found (λ said.
        IsSpelled text.now said.0 said.1)) }
{
    match read_printed(alloc, text)? {
        Some(fields) => Ok(named_rule(fields)),
        None => Ok(None),
    }
}

// The fields of a text that prints them.
fn read_printed(alloc: Global, text: &str) -> Result<Option<Vec<Text>>, NoMemory>
    ensures none { IfOk result (λ found. IfNone found ((fields : Fields)
        → ¬ (IsPrinted text.now fields))) }
    ensures found { IfOk result (λ found. IfSome found (λ fields.
        IsPrinted text.now fields.items)) }
{
    let fields = match read_fields(alloc, text) {
        Ok(fields) => fields,
        Err(FieldFault::NoMemory) => return Err(NoMemory),
        Err(FieldFault::Quote { .. }) => return Ok(None),
        Err(FieldFault::TooMany) => return Ok(None),
    };
    let line = Rule::from_vec(fields);
    let printed = print_fields(alloc, &line)?;
    if printed.as_str() != text {
        return Ok(None);
    }
    Ok(Some(line.into_fields()))
}

// The table that the first field names, and the rule of the others, 1 to 32.
fn named_rule(mut fields: Vec<Text>) -> Option<(TableId, Rule)>
    requires some { 0 < length fields.items }
    requires fields { AreFields fields.items }
    ensures none { IfNone result ((table : declared.TableId) (rule : Fields)
        → ¬ (IsNamed fields.items table rule)) }
    ensures found { IfSome result (λ said. IsNamed fields.items said.0 said.1) }
    ensures whole { IfSome result (λ said. AreFields said.1) }
{
    let name = fields.remove(0);
    let table = TableId::named(name.as_str())?;
    if fields.is_empty() || fields.len() > MOST_FIELDS {
        return None;
    }
    Some((table, Rule::from_vec(fields)))
}
