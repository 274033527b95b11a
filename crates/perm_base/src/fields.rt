ghost use Rattle.std.specs.Prelude.{◌≡◌, ◌++◌, ℕ, List, OnErr, OnOk, string_bytes};
ghost use Rattle.perm_base.specs.Fields.{joined};

use crate::rule::Rule;
use outside::NoMemory;

/// Appends the texts of a rule to a text, joined by a comma and a blank. Where memory runs out, a part of them stands
/// behind what the text held.
pub fn push_texts(text: &mut String, rule: &Rule) -> Result<(), NoMemory>
    ensures ok { OnOk result (string_bytes text.new ≡ string_bytes text.old ++ joined rule.now) }
    ensures err { OnErr result ((part : List ℕ)
        × (string_bytes text.new ≡ string_bytes text.old ++ part)) }
{
    for (at, field) in rule.fields().iter().enumerate() {
        if at > 0 {
            text.push_str(", ")?;
        }
        text.push_str(field.as_str())?;
    }
    Ok(())
}
