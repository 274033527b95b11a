ghost use Rattle.std.specs.Prelude.{◌≡◌, ◌≢◌, ◌<◌, ◌∷◌, ◌++◌, ℕ, List, [], false, IfErr, IfNone, IfOk, IfSome, MatchResult, length, option_to_list};
ghost use Rattle.policy_table.specs.declared.change.Change as change;
ghost use Rattle.text_parts.specs.Lines.{has_byte, with_ends};
ghost use Rattle.version_log.specs.EditText.{AreFront, IsEditFault, IsEditText, number_at};
ghost use Rattle.version_log.specs.Helps.Items.{HasRead, step};
ghost use Rattle.version_log.specs.declared.edit_fault.EditFault as declared;

use crate::edit_fault::EditFault;
use crate::item::{EditItem, Sign};
use crate::item_read::read_item;
use outside::NoMemory;
use perm_base::{Rule, TableId};
use policy_table::{Change, Edit};
use std::alloc::Global;

/// Where a reader of lines stands.
#[derive(Drop)]
pub(crate) enum Place {
    /// Behind whole changes.
    Between,
    /// Behind the old rule of a replacement.
    Half { table: TableId, old: Rule },
    /// Behind the last line.
    Ended,
}

// The changes that were read, and where the reader stands.
#[derive(Drop)]
struct Reading {
    changes: Vec<Change>,
    place: Place,
}

/// Reads an edit from the text that `print_edit` prints of it, where its tables have names and its rules have 1 to 32
/// fields. No other spelling is read.
pub fn read_edit(alloc: Global, text: &[u8]) -> Result<Edit, EditFault>
    // What is read is what the text says.
    ensures found { IfOk result (IsEditText text.now) }
    // What the text says is read, unless memory runs out.
    ensures only { (changes : List change.Change) → IsEditText text.now changes
        → MatchResult result (λ edit. edit ≡ changes) (λ fault. fault ≡ EditFault.NoMemory) }

    // The fault is that of the text, and its fault is told.
    ensures fault { IfErr result (λ fault.
        fault ≢ EditFault.NoMemory → IsEditFault text.now fault) }
    ensures only_fault { (first : declared.EditFault) → IsEditFault text.now first
        → MatchResult result (λ edit. ⊥) (λ fault. fault ≢ EditFault.NoMemory → fault ≡ first) }
{
    edit_of(alloc, text)
}

// The edit of a text, or its fault.
fn edit_of(alloc: Global, text: &[u8]) -> Result<Edit, EditFault>
    ensures found { IfOk result (IsEditText text.now) }
    ensures fault { IfErr result (λ fault.
        fault ≢ EditFault.NoMemory → IsEditFault text.now fault) }
{
    let mut reading = Reading {
        changes: Vec::new(alloc),
        place: Place::Between,
    };
    let mut number: u32 = 1;
    let mut rest = text;
    while let Some((line, after)) = next_ended_line(rest) {
        let Some(next) = take(alloc, reading, line)? else {
            return Err(EditFault::Malformed { line: number });
        };
        reading = next;
        number = number.saturating_add(1);
        rest = after;
    }
    end(alloc, reading, rest, number)
}

// The first line of a text that ends in LF, without it, and what stands behind it.
fn next_ended_line(text: &[u8]) -> Option<(&[u8], &[u8])>
    ensures none { IfNone result (has_byte 10 text.now ≡ false) }
    ensures parts { IfSome result (λ cut. text.now ≡ cut.0.now ++ 10 ∷ cut.1.now) }
    ensures first { IfSome result (λ cut. has_byte 10 cut.0.now ≡ false) }
{
    let at = text.iter().position(|b| *b == b'\n')?;
    Some((&text[..at], &text[at + 1..]))
}

// Takes a line, if it may stand there.
fn take(alloc: Global, reading: Reading, line: &[u8]) -> Result<Option<Reading>, NoMemory>
    requires { has_byte 10 line.now ≡ false }
    ensures taken { (front : List (List ℕ)) → HasRead front reading.changes.items reading.place
        → IfOk result (λ found. IfSome found (λ next.
        HasRead (front ++ line.now ∷ []) next.changes.items next.place)) }
    ensures stray { (front : List (List ℕ)) → HasRead front reading.changes.items reading.place
        → IfOk result (λ found. IfNone found (¬ (AreFront (front ++ line.now ∷ [])))) }
{
    let Some(item) = read_item(alloc, line)? else {
        return Ok(None);
    };
    let Reading { changes, place } = reading;
    let Some((place, change)) = step(place, item) else {
        return Ok(None);
    };
    let changes = with_change(changes, change)?;
    Ok(Some(Reading { changes, place }))
}

// The place behind a line, and the change that it completes.
fn step(place: Place, item: EditItem) -> Option<(Place, Option<Change>)>
    ensures { result ≡ step place item }
{
    match place {
        Place::Between => match item {
            EditItem::End => Some((Place::Ended, None)),
            EditItem::Signed { sign, table, rule } => match sign {
                Sign::Inserted => Some((Place::Between, Some(Change::Insert { table, rule }))),
                Sign::Removed => Some((Place::Between, Some(Change::Remove { table, rule }))),
                Sign::Old => Some((Place::Half { table, old: rule }, None)),
                Sign::New => None,
            },
        },
        Place::Half { table, old } => match item {
            EditItem::Signed {
                sign: Sign::New,
                table: there,
                rule: new,
            } if table == there => Some((
                Place::Between,
                Some(Change::Replace { table, old, new }),
            )),
            _ => None,
        },
        Place::Ended => None,
    }
}

// The changes with one more, if there is one.
fn with_change(mut changes: Vec<Change>, change: Option<Change>) -> Result<Vec<Change>, NoMemory>
    ensures { IfOk result (λ all. all.items ≡ changes.items ++ option_to_list change) }
{
    if let Some(change) = change {
        changes.push(change)?;
    }
    Ok(changes)
}

// The edit, where nothing is left of the text behind its last line; else the fault. What is left has this number.
fn end(alloc: Global, reading: Reading, rest: &[u8], number: u32) -> Result<Edit, EditFault>
    requires { has_byte 10 rest.now ≡ false }
    ensures found { (front : List (List ℕ)) → HasRead front reading.changes.items reading.place
        → IfOk result (IsEditText (with_ends front ++ rest.now)) }
    ensures fault { (front : List (List ℕ)) → HasRead front reading.changes.items reading.place
        → number ≡ number_at (length front)
        → IfErr result (λ fault. fault ≢ EditFault.NoMemory
        → IsEditFault (with_ends front ++ rest.now) fault) }
{
    if rest.is_empty() {
        return match reading.place {
            Place::Ended => Ok(Edit::from_vec(reading.changes)),
            _ => Err(EditFault::Malformed { line: number }),
        };
    }
    let Some(_reading) = take(alloc, reading, rest)? else {
        return Err(EditFault::Malformed { line: number });
    };
    Err(EditFault::Malformed {
        line: number.saturating_add(1),
    })
}
