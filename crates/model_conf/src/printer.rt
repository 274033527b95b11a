ghost use Rattle.std.specs.Prelude.{◌≡◌, ◌≤◌, [], ◌∷◌, ◌++◌, All, IfOk, OnOk, codes, if◌then◌else◌, length, string_bytes};
ghost use Rattle.text_parts.specs.Lines.{with_ends};
ghost use Rattle.model_conf.specs.Kept.{IsRelation};
ghost use Rattle.model_conf.specs.ModelText.{IsModel, most_bytes};
ghost use Rattle.model_conf.specs.Printed.{printed, role_lines};

use crate::effects::effect_text;
use crate::model::Model;
use crate::sections::relation_name;
use outside::{NoMemory, Text};
use perm_base::{RoleShape, push_texts};
use std::alloc::Global;

/// The text of a model: its sections with an empty line between two, each line with LF behind it. The section of
/// relations is left out where there are none.
pub fn print_model(alloc: Global, model: &Model) -> Result<Text, NoMemory>
    ensures form { IfOk result (λ text. text ≡ printed model.now) }
    // The text says the model, where it has no more bytes than a model may have.
    ensures read_back { IfOk result (λ text. length text ≤ most_bytes → IsModel text model.now) }
{
    let mut text = String::new(alloc);
    text.push_str("[request_definition]\nr = ")?;
    push_texts(&mut text, model.request_columns())?;
    text.push_str("\n\n[policy_definition]\np = ")?;
    push_texts(&mut text, model.policy_columns())?;
    text.push_str("\n")?;
    push_relations(&mut text, model.relations())?;
    text.push_str("\n[policy_effect]\ne = ")?;
    text.push_str(effect_text(model.effect()))?;
    text.push_str("\n\n[matchers]\nm = ")?;
    text.push_str(model.matcher_text().as_str())?;
    text.push_str("\n")?;
    Ok(Text::from_string(text))
}

// Appends the section of relations, an empty line before it, where there are some.
fn push_relations(text: &mut String, relations: &[RoleShape]) -> Result<(), NoMemory>
    requires { All IsRelation relations.now }
    ensures { OnOk result
        (string_bytes text.new ≡ string_bytes text.old ++ with_ends (role_lines relations.now)) }
{
    if relations.is_empty() {
        return Ok(());
    }
    text.push_str("\n[role_definition]\n")?;
    for shape in relations {
        text.push_str(relation_name(shape.number))?;
        text.push_str(shape_text(*shape))?;
    }
    Ok(())
}

// What stands behind the name of a relation, to the end of its line.
fn shape_text(shape: RoleShape) -> &'static str
    ensures { result.now ≡ codes " = "
        ++ ((if shape.with_domain then codes "_, _, _" else codes "_, _") ++ 10 ∷ []) }
{
    if shape.with_domain {
        " = _, _, _\n"
    } else {
        " = _, _\n"
    }
}
