ghost use Rattle.std.specs.Prelude.{◌≡◌, ◌≢◌, IfErr, IfOk, MatchResult, OnOk};
ghost use Rattle.perm_base.specs.Shapes.{AreValid};
ghost use Rattle.policy_csv.specs.Faults.{IsPolicyFault};
ghost use Rattle.policy_csv.specs.Helps.Entries.{IsStop};
ghost use Rattle.policy_csv.specs.Helps.Filled.{IsFilled, TookLine, ranked_if};
ghost use Rattle.policy_csv.specs.Policy.{IsPolicy};
ghost use Rattle.policy_csv.specs.declared.fault.PolicyFault as declared;
ghost use Rattle.policy_table.specs.Limits.{AreSound};
ghost use Rattle.policy_table.specs.Tables.{Policy};

use crate::entry::read_entry;
use crate::fault::PolicyFault;
use crate::fill::{put, ranked_if};
use perm_base::Shapes;
use policy_table::{Tables, no_tables};
use std::alloc::Global;
use text_parts::{given_number, next_full_line};

/// Reads the rules of a policy into tables of the shapes. Lines are cut at LF or CR LF; a line of blanks alone, or one
/// whose first byte that is no blank is `#`, is passed over. Any other is the name of a table, `p`, `g` or `g2` to `g8`,
/// and the fields of a rule, as `read_fields` reads them. A rule that stands already is passed over. Where a text is no
/// policy, its first `PolicyFault` is told.
pub fn read_policy(alloc: Global, bytes: &[u8], shapes: &Shapes) -> Result<Tables, PolicyFault>
    requires { AreValid shapes.now }

    // What is read is what the bytes say.
    ensures found { IfOk result (λ tables. IsPolicy shapes.now bytes.now tables.policy) }
    // What the bytes say is read, unless memory runs out.
    ensures only { (policy : Policy) → IsPolicy shapes.now bytes.now policy
        → MatchResult result (λ tables. tables.policy ≡ policy)
        (λ fault. fault ≡ PolicyFault.NoMemory) }

    // Each fault is the first of the bytes, and their first fault is told.
    ensures fault { IfErr result (λ fault.
        fault ≢ PolicyFault.NoMemory → IsPolicyFault shapes.now bytes.now fault) }
    ensures only_fault { (first : declared.PolicyFault) → IsPolicyFault shapes.now bytes.now first
        → MatchResult result (λ tables. ⊥) (λ fault. fault ≢ PolicyFault.NoMemory → fault ≡ first) }

    ensures sound { IfOk result (λ tables. AreSound shapes.now tables.policy) }
{
    let Ok(text) = str::from_utf8(bytes) else {
        return Err(PolicyFault::NotUtf8);
    };
    // A rule that goes among ranked ones shifts those behind it: they are ranked once, at the end.
    let mut tables = no_tables(alloc);
    let mut number = 1;
    let mut rest = text;
    while let Some((at, line, after)) = next_full_line(rest, number) {
        take_line(alloc, &mut tables, shapes, given_number(at), line)?;
        number = at + 1;
        rest = after;
    }
    Ok(ranked_if(shapes.ranked, tables)?)
}

// Puts in the rule that a line says. The line has this number.
fn take_line(
    alloc: Global,
    tables: &mut Tables,
    shapes: &Shapes,
    number: u32,
    line: &str,
) -> Result<(), PolicyFault>
    requires valid { AreValid shapes.now }
    requires filled { IsFilled shapes.now tables.old.policy }
    ensures taken { OnOk result (TookLine shapes.now line.now tables.old.policy tables.new.policy) }
    ensures fault { IfErr result (IsStop shapes.now number line.now
        (ranked_if shapes.now.ranked tables.old.policy)) }
{
    let entry = read_entry(alloc, shapes, number, line)?;
    match put(tables, shapes, entry)? {
        None => Ok(()),
        Some(what) => Err(PolicyFault::Full { line: number, what }),
    }
}
