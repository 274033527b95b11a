ghost use Rattle.std.specs.Prelude.{◌≡◌, ◌∷◌, ℕ, List, IfErr, IfNone, IfOk, IfSome, Some, option_map};
ghost use Rattle.perm_base.specs.FieldFaults.{HasTooMany};
ghost use Rattle.perm_base.specs.FieldLine.{IsFields};
ghost use Rattle.perm_base.specs.LineEnds.{AreFields};
ghost use Rattle.perm_base.specs.TableNames.{table_named};
ghost use Rattle.policy_csv.specs.Faults.{BeginsWith, IsTextFault, columns_named};
ghost use Rattle.policy_csv.specs.Helps.Entries.{BeginsWithComma};
ghost use Rattle.policy_csv.specs.Policy.{SaysRule};
ghost use Rattle.policy_table.specs.Limits.{columns_of};

use crate::fault::PolicyFault;
use outside::{NoMemory, Text};
use perm_base::{FieldFault, Rule, Shapes, TableId, read_fields};
use policy_table::{columns_of, has_short_fields};
use std::alloc::Global;
use text_parts::cut_at;

/// A rule, and its table.
#[derive(Drop)]
pub struct Entry {
    pub table: TableId,
    pub rule: Rule,
}

/// The rule that a line says by itself, or its fault, which is none of the limits of tables. The line has this number.
pub fn read_entry(
    alloc: Global,
    shapes: &Shapes,
    number: u32,
    line: &str,
) -> Result<Entry, PolicyFault>
    ensures found { IfOk result (SaysRule shapes.now line.now) }
    ensures fault { IfErr result (IsTextFault shapes.now number line.now) }
{
    match read_fields(alloc, line) {
        Ok(mut fields) => {
            let name = fields.remove(0);
            entry_of(shapes, number, name.as_str(), fields)
        }
        Err(FieldFault::Quote { column }) => Err(PolicyFault::Quote {
            line: number,
            column,
        }),
        Err(FieldFault::TooMany) => Err(fault_of_many(alloc, shapes, number, line)),
        Err(FieldFault::NoMemory) => Err(PolicyFault::NoMemory),
    }
}

// The rule of these fields, in the table of this name.
fn entry_of(
    shapes: &Shapes,
    number: u32,
    name: &str,
    fields: Vec<Text>,
) -> Result<Entry, PolicyFault>
    requires { AreFields fields.items }
    ensures found { (text : List ℕ) → IsFields text (name.now ∷ fields.items)
        → IfOk result (SaysRule shapes.now text) }
    ensures fault { (text : List ℕ) → IsFields text (name.now ∷ fields.items)
        → IfErr result (IsTextFault shapes.now number text) }
{
    let Some((table, columns)) = table_named(shapes, name) else {
        return Err(PolicyFault::UnknownTable { line: number });
    };
    let rule = Rule::from_vec(fields);
    if rule.len() != columns {
        return Err(PolicyFault::Columns { line: number });
    }
    if !has_short_fields(&rule) {
        return Err(PolicyFault::FieldTooLong { line: number });
    }
    Ok(Entry { table, rule })
}

// The fault of a line that has more fields than a line may have.
fn fault_of_many(alloc: Global, shapes: &Shapes, number: u32, line: &str) -> PolicyFault
    requires { HasTooMany line.now }
    ensures { IsTextFault shapes.now number line.now result }
{
    match first_field(alloc, line) {
        Ok(Some(name)) => match table_named(shapes, name.as_str()) {
            Some(_) => PolicyFault::Columns { line: number },
            None => PolicyFault::UnknownTable { line: number },
        },
        Ok(None) => PolicyFault::UnknownTable { line: number },
        Err(_) => PolicyFault::NoMemory,
    }
}

// The first field of such a line, unless it holds a comma.
fn first_field(alloc: Global, line: &str) -> Result<Option<Text>, NoMemory>
    requires { HasTooMany line.now }
    ensures found { IfOk result (λ name. IfSome name (BeginsWith line.now)) }
    ensures comma { IfOk result (λ name. IfNone name (BeginsWithComma line.now)) }
{
    let Some((first, _)) = cut_at(line, b',') else {
        unreachable!()
    };
    match read_fields(alloc, first) {
        Ok(mut fields) => Ok(Some(fields.remove(0))),
        Err(FieldFault::Quote { .. }) => Ok(None),
        // A text without a comma is one field.
        Err(FieldFault::TooMany) => unreachable!(),
        Err(FieldFault::NoMemory) => Err(NoMemory),
    }
}

// The table that a name names and its number of columns, where the shapes have it.
fn table_named(shapes: &Shapes, name: &str) -> Option<(TableId, u32)>
    ensures named { IfSome result (λ found. table_named name.now ≡ Some found.0) }
    ensures columns { IfSome result (λ found. columns_of shapes.now found.0 ≡ Some found.1) }
    ensures known { option_map (λ found. found.1) result ≡ columns_named shapes.now name.now }
{
    let table = TableId::named(name)?;
    let columns = columns_of(shapes, table)?;
    Some((table, columns))
}
