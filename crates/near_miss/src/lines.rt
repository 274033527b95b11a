ghost use Rattle.std.specs.Prelude.{◌≡◌, ◌++◌, ◌-◌, [], OnOk, decimal, string_bytes};
ghost use Rattle.std.specs.List.{slice_index_or};
ghost use Rattle.perm_base.specs.FieldLine.{printed};
ghost use Rattle.perm_base.specs.declared.shapes.TableId.TheVariants.{P};
ghost use Rattle.policy_state.specs.States.{tables};
ghost use Rattle.policy_table.specs.Tables.{rows};
ghost use Rattle.near_miss.specs.Lines.{miss_line, miss_lines, part_texts};
ghost use Rattle.near_miss.specs.Helps.Pushed.{Appends};

use crate::explainer::Explainer;
use crate::misses::NearMiss;
use crate::part::Part;
use crate::words::push_word;
use itoa::Buffer;
use outside::NoMemory;
use perm_base::{TableId, push_fields};
use policy_state::PolicyState;
use policy_table::Tables;

/// Appends a line for each near miss, as `  p#2 alice, data2, read lacks r.obj == p.obj`: the row, its rule as
/// `print_fields` prints it, and the part that it lacks. It takes memory for the text alone.
pub fn push_near_misses(
    text: &mut String,
    explainer: &Explainer,
    state: &PolicyState,
    misses: &[NearMiss],
) -> Result<(), NoMemory>
    ensures { OnOk result (string_bytes text.new ≡ string_bytes text.old
        ++ miss_lines explainer.now (rows (tables state.now) P) misses.now) }
{
    for miss in misses {
        push_miss(text, explainer.parts.as_slice(), state.tables(), *miss)?;
    }
    Ok(())
}

// Appends the line of a near miss.
fn push_miss(
    text: &mut String,
    parts: &[Part],
    tables: &Tables,
    miss: NearMiss,
) -> Result<(), NoMemory>
    ensures { OnOk result (Appends text.old text.new
        (miss_line parts.now (rows tables.now.policy P) miss)) }
{
    text.push_str("  p#")?;
    push_number(text, miss.row)?;
    text.push_str(" ")?;
    push_rule(text, tables, miss.row)?;
    text.push_str(" lacks ")?;
    push_part(text, parts, miss.part)?;
    text.push_str("\n")?;
    Ok(())
}

// Appends a number in decimal digits.
fn push_number(text: &mut String, number: u32) -> Result<(), NoMemory>
    ensures { OnOk result (Appends text.old text.new (decimal number)) }
{
    let mut digits = Buffer::new();
    text.push_str(digits.format(number))?;
    Ok(())
}

// Appends the rule of this number.
fn push_rule(text: &mut String, tables: &Tables, number: u32) -> Result<(), NoMemory>
    ensures { OnOk result (Appends text.old text.new
        (printed (slice_index_or (rows tables.now.policy P) (number - 1) []))) }
{
    match tables.get(TableId::P, number.saturating_sub(1)) {
        Some(rule) => push_fields(text, rule),
        None => Ok(()),
    }
}

// Appends the text of a part.
fn push_part(text: &mut String, parts: &[Part], at: usize) -> Result<(), NoMemory>
    ensures { OnOk result (Appends text.old text.new
        (slice_index_or (part_texts parts.now) at [])) }
{
    match parts.get(at) {
        Some(part) => push_word(text, part.text()),
        None => Ok(()),
    }
}
