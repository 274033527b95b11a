ghost use Rattle.std.specs.Prelude.{◌≡◌};
ghost use Rattle.run_status.specs.Messages.{line_cause};
ghost use Rattle.live_serve.specs.Lines.{cause_text};

use script_read::{LineCause, ScriptFault};

/// Why a section is no script, as it is told.
pub(crate) fn cause_text(fault: ScriptFault) -> &'static str
    ensures { result.now ≡ cause_text fault }
{
    match fault {
        ScriptFault::NotUtf8 => "not UTF-8",
        ScriptFault::Line { cause, .. } => line_cause(cause),
        ScriptFault::OpenBatch { .. } => "open batch",
        ScriptFault::NoMemory => "",
    }
}

fn line_cause(cause: LineCause) -> &'static str
    ensures { result.now ≡ line_cause cause }
{
    match cause {
        LineCause::Word => "word",
        LineCause::Quote => "quote",
        LineCause::Fields => "fields",
        LineCause::Table => "table",
        LineCause::Number => "number",
        LineCause::Mixed => "mixed",
        LineCause::Unpaired => "unpaired",
    }
}
