ghost use Rattle.std.specs.Prelude.{◌++◌, decimal};
ghost use Rattle.outside.specs.Pushes.{PushesAll};
ghost use Rattle.run_status.specs.Told.{IsTold};
ghost use Rattle.serve_run.specs.Announced.{serving_line};

use command_words::Files;
use itoa::Buffer;
use outside::{Failed, Sink, push_all};

/// Tells what is served, the model of these files and so many rules: pushes the line. Where a push fails, no more is told. It takes
/// no memory.
pub(crate) fn tell_serving<E: Sink>(err: &mut E, files: &Files<'_>, rules: u32)
    ensures { IsTold (E.taken err.old) (E.taken err.new)
        (E.faults err.old) (E.faults err.new) (serving_line files.now.model rules) }
{
    let _ = push_serving(err, files.model, rules);
}

fn push_serving<E: Sink>(err: &mut E, model: &str, rules: u32) -> Result<(), Failed>
    ensures { PushesAll (E.taken err.old) (E.taken err.new)
        (E.faults err.old) (E.faults err.new) (serving_line model.now rules) result }
{
    push_named(err, "serving ", model)?;
    push_counted(err, ": ", rules)?;
    push_all(err, b" rules\n")
}

fn push_named<E: Sink>(err: &mut E, text: &str, name: &str) -> Result<(), Failed>
    ensures { PushesAll (E.taken err.old) (E.taken err.new)
        (E.faults err.old) (E.faults err.new) (text.now ++ name.now) result }
{
    push_text(err, text)?;
    push_text(err, name)
}

fn push_counted<E: Sink>(err: &mut E, text: &str, count: u32) -> Result<(), Failed>
    ensures { PushesAll (E.taken err.old) (E.taken err.new)
        (E.faults err.old) (E.faults err.new) (text.now ++ decimal count) result }
{
    push_text(err, text)?;
    push_number(err, count)
}

fn push_text<E: Sink>(err: &mut E, text: &str) -> Result<(), Failed>
    ensures { PushesAll (E.taken err.old) (E.taken err.new)
        (E.faults err.old) (E.faults err.new) text.now result }
{
    push_all(err, text.as_bytes())
}

fn push_number<E: Sink>(err: &mut E, number: u32) -> Result<(), Failed>
    ensures { PushesAll (E.taken err.old) (E.taken err.new)
        (E.faults err.old) (E.faults err.new) (decimal number) result }
{
    let mut digits = Buffer::new();
    push_all(err, digits.format(number).as_bytes())
}
