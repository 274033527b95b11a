ghost use Rattle.std.specs.Prelude.{◌≡◌, ◌≤◌, IfErr, IfOk, OnOk, string_bytes};
ghost use Rattle.answer_lines.specs.LineText.{Appends};
ghost use Rattle.outside.specs.Faults.{Rose};
ghost use Rattle.outside.specs.Told.{with_back};
ghost use Rattle.policy_csv.specs.Printed.{printed};
ghost use Rattle.loaded_work.specs.Helps.TaskSteps.{IsReady, ShowStops};
ghost use Rattle.casbin_run.specs.Shown.{ReadsBack};
ghost use Rattle.casbin_run.specs.declared.job.Task.TheVariants.{Check, Format};
ghost use Rattle.casbin_run.specs.Texts.{check_text, count_line};

use itoa::Buffer;
use loaded_work::Loaded;
use model_conf::print_model;
use outside::{NoMemory, Sink, push_all};
use perm_base::TableId;
use policy_csv::print_policy;
use policy_table::Tables;
use run_status::Stop;
use std::alloc::Global;

/// Prints the model, an empty line, and for each of its tables a line with its name and how many rules it has.
pub(crate) fn check<K: Sink>(alloc: Global, loaded: &Loaded, out: &mut K) -> Result<(), Stop>
    ensures reads_back { OnOk result
        (ReadsBack Check loaded.now.model loaded.now.shapes loaded.now.tables.policy) }
    ensures shown { OnOk result (K.taken out.new ≡ with_back (K.taken out.old)
        (check_text loaded.now.model loaded.now.tables.policy)) }
    ensures stopped { IfErr result (ShowStops (K.taken out.old) (K.taken out.new)
        (check_text loaded.now.model loaded.now.tables.policy)
        (Rose (K.faults out.old) (K.faults out.new))) }
    ensures counted { K.faults out.old ≤ K.faults out.new }
{
    let text = check_text(alloc, loaded)?;
    push_all(out, text.as_bytes())?;
    Ok(())
}

/// Prints the policy.
pub(crate) fn format<K: Sink>(alloc: Global, loaded: &Loaded, out: &mut K) -> Result<(), Stop>
    requires { IsReady loaded.now }
    ensures reads_back { OnOk result
        (ReadsBack Format loaded.now.model loaded.now.shapes loaded.now.tables.policy) }
    ensures shown { OnOk result (K.taken out.new ≡ with_back (K.taken out.old)
        (printed loaded.now.tables.policy)) }
    ensures stopped { IfErr result (ShowStops (K.taken out.old) (K.taken out.new)
        (printed loaded.now.tables.policy) (Rose (K.faults out.old) (K.faults out.new))) }
    ensures counted { K.faults out.old ≤ K.faults out.new }
{
    let text = print_policy(alloc, &loaded.tables)?;
    push_all(out, text.bytes())?;
    Ok(())
}

// The text of a model and of the counts of its tables.
fn check_text(alloc: Global, loaded: &Loaded) -> Result<String, NoMemory>
    ensures text { IfOk result (λ text.
        string_bytes text ≡ check_text loaded.now.model loaded.now.tables.policy) }
    ensures reads_back { OnOk result
        (ReadsBack Check loaded.now.model loaded.now.shapes loaded.now.tables.policy) }
{
    let mut text = String::new(alloc);
    text.push_str(print_model(alloc, &loaded.model)?.as_str())?;
    text.push_str("\n")?;
    push_count(&mut text, &loaded.tables, TableId::P)?;
    let relations = loaded.model.relations();
    for shape in relations {
        push_count(&mut text, &loaded.tables, TableId::G(shape.number))?;
    }
    Ok(text)
}

// Appends the line of a table.
fn push_count(text: &mut String, tables: &Tables, table: TableId) -> Result<(), NoMemory>
    ensures { OnOk result (Appends text.old text.new (count_line tables.now.policy table)) }
{
    text.push_str(table.name().unwrap_or(""))?;
    text.push_str(" ")?;
    let mut digits = Buffer::new();
    text.push_str(digits.format(tables.len(table)))?;
    text.push_str("\n")?;
    Ok(())
}
