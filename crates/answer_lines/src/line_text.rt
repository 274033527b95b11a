ghost use Rattle.std.specs.Prelude.{◌≡◌, ◌++◌, OnErr, OnOk, codes, decimal, true};
ghost use Rattle.answer_lines.specs.LineText.{Appends, IsKept, answer_text, truth_text};
ghost use Rattle.answer_lines.specs.Told.{is_printable};

use crate::answer::Answer;
use crate::pieces::{push_at, push_text};
use crate::refusals::{push_arity, push_call, push_fault, push_query};
use crate::rows::{push_names, push_recorded, push_rules};
use crate::verdicts::push_verdict_alone;
use outside::NoMemory;

/// Appends what is answered, without the LF at its end.
pub(crate) fn push_answer(text: &mut String, answer: &Answer) -> Result<(), NoMemory>
    requires { is_printable answer.now ≡ true }
    ensures appended { OnOk result (Appends text.old text.new (answer_text answer.now)) }
    ensures kept { OnErr result (IsKept text.old text.new) }
{
    match answer {
        Answer::Decided {
            version,
            verdict,
            rule,
        } => push_verdict_alone(text, *version, *verdict, rule.as_ref()),
        Answer::Arity { got, want } => push_arity(text, *got, *want),
        Answer::Request(fault) => push_fault(text, *fault),
        Answer::Call(refused) => push_call(text, *refused),
        Answer::Query(refused) => push_query(text, *refused),
        Answer::Truth(truth) => push_truth(text, *truth),
        Answer::Published(version) => push_at(text, "published @", *version),
        Answer::Synced(version) => push_at(text, "synced @", *version),
        Answer::Has { version, stands } => push_has(text, *version, *stands),
        Answer::Rows {
            version,
            table,
            rules,
        } => push_rules(text, *version, *table, rules),
        Answer::Roles { version, names } => push_names(text, "roles", *version, names),
        Answer::Users { version, names } => push_names(text, "users", *version, names),
        Answer::Kept(count) => push_at(text, "kept ", *count),
        Answer::Recorded {
            version,
            number,
            edit,
        } => push_recorded(text, *version, *number, edit),
    }
}

// Appends whether a rule stands.
fn push_has(text: &mut String, version: u32, stands: bool) -> Result<(), NoMemory>
    ensures appended { OnOk result (Appends text.old text.new
        (codes "has @" ++ decimal version ++ codes " " ++ truth_text stands)) }
    ensures kept { OnErr result (IsKept text.old text.new) }
{
    push_at(text, "has @", version)?;
    text.push_str(" ")?;
    push_truth(text, stands)
}

// Appends true or false.
fn push_truth(text: &mut String, truth: bool) -> Result<(), NoMemory>
    ensures appended { OnOk result (Appends text.old text.new (truth_text truth)) }
    ensures kept { OnErr result (IsKept text.old text.new) }
{
    push_text(text, if truth { "true" } else { "false" })
}
