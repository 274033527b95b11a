ghost use Rattle.std.specs.Prelude.{◌<◌, Result, length};
ghost use Rattle.perm_base.specs.LineEnds.{AreFields};
ghost use Rattle.script_read.specs.Blocks.{at_line};
ghost use Rattle.script_read.specs.Helps.Given.{Gives, fields_read};
ghost use Rattle.std.specs.Prelude.{IfOk};

use crate::fault::{LineCause, ScriptFault};
use outside::Text;
use perm_base::{FieldFault, read_fields};
use std::alloc::Global;

/// Reads a text of the line of this number as fields.
pub(crate) fn fields_at(alloc: Global, number: u32, text: &str) -> Result<Vec<Text>, ScriptFault>
    ensures given { Gives (λ fields. fields.items) result (at_line number (fields_read text.now)) }
    ensures rule { IfOk result (λ fields. AreFields fields.items) }
    ensures some { IfOk result (λ fields. 0 < length fields.items) }
{
    match read_fields(alloc, text) {
        Ok(fields) => Ok(fields),
        Err(FieldFault::Quote { .. }) => Err(LineCause::Quote.at(number)),
        Err(FieldFault::TooMany) => Err(LineCause::Fields.at(number)),
        Err(FieldFault::NoMemory) => Err(ScriptFault::NoMemory),
    }
}
