ghost use Rattle.std.specs.Prelude.{◌≡◌, ◌++◌, ◌∷◌, [], IfOk, OnOk, string_bytes};
ghost use Rattle.perm_base.specs.FieldLine as field;
ghost use Rattle.perm_base.specs.LineEnds.{AreFields};
ghost use Rattle.perm_base.specs.Shapes.{AreValid};
ghost use Rattle.perm_base.specs.declared.shapes.Shapes as declared;
ghost use Rattle.policy_csv.specs.Policy.{IsPolicy};
ghost use Rattle.policy_csv.specs.Printed.{HaveFields, printed, table_lines};
ghost use Rattle.policy_table.specs.Limits.{AreSound};
ghost use Rattle.text_parts.specs.Lines.{with_ends};

use outside::{NoMemory, Text};
use perm_base::{Rule, TableId, push_named};
use policy_table::Tables;
use std::alloc::Global;

// In the order in which they are printed.
const TABLES: [TableId; 9] = [
    TableId::P,
    TableId::G(1),
    TableId::G(2),
    TableId::G(3),
    TableId::G(4),
    TableId::G(5),
    TableId::G(6),
    TableId::G(7),
    TableId::G(8),
];

/// Prints the rules of all tables, p first and then g to g8: for each rule a line of its table's name and its fields, as
/// `print_fields` prints fields, ended by LF. For shapes that the tables have, `read_policy` gives them back.
pub fn print_policy(alloc: Global, tables: &Tables) -> Result<Text, NoMemory>
    ensures printed { IfOk result (λ text. text ≡ printed tables.now.policy) }
    ensures read { IfOk result (λ text. (shapes : declared.Shapes) → AreValid shapes
        → AreSound shapes tables.now.policy → IsPolicy shapes text tables.now.policy) }
{
    tables.kept();
    let mut text = String::new(alloc);
    for table in &TABLES {
        push_table(&mut text, tables, *table)?;
    }
    Ok(Text::from_string(text))
}

// Appends the lines of a table.
fn push_table(text: &mut String, tables: &Tables, table: TableId) -> Result<(), NoMemory>
    ensures lines { OnOk result (string_bytes text.new
        ≡ string_bytes text.old ++ with_ends (table_lines tables.now.policy table)) }
    ensures fields { OnOk result (HaveFields tables.now.policy table) }
{
    let Some(name) = table.name() else {
        return Ok(());
    };
    for rule in tables.rows(table) {
        push_line(text, name, rule)?;
    }
    Ok(())
}

// Appends the line of a rule.
fn push_line(text: &mut String, name: &str, rule: &Rule) -> Result<(), NoMemory>
    requires { field.printed_field name.now ≡ name.now }
    ensures line { OnOk result (string_bytes text.new
        ≡ string_bytes text.old ++ (field.printed (name.now ∷ rule.now) ++ 10 ∷ [])) }
    ensures fields { OnOk result (AreFields rule.now) }
{
    push_named(text, name, rule)?;
    text.push_str("\n")?;
    Ok(())
}
