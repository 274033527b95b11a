ghost use Rattle.std.specs.Prelude.{◌≡◌, ◌≤◌, [], All, IfOk, IfErr, IfSome, List, OnOk, is_ok, map, string_bytes, true};
ghost use Rattle.outside.specs.Ends.{IsEndedOnce, ends_after};
ghost use Rattle.outside.specs.Faults.{Rose};
ghost use Rattle.script_read.specs.Named.{is_named};
ghost use Rattle.script_read.specs.Said.{Said, seen};
ghost use Rattle.script_read.specs.Script.{IsScript};
ghost use Rattle.casbin_run.specs.Causes.{HasFault};
ghost use Rattle.casbin_run.specs.Given.{InputIs, SaysItems, SaysPackets};
ghost use Rattle.casbin_run.specs.Helps.Loads.{BytesStop, InputStops};
ghost use Rattle.casbin_run.specs.Helps.Tasks.{is_past};
ghost use Rattle.casbin_run.specs.declared.job.Task.TheVariants.{Enforce, Serve, Follow};

use log_ship::{Packets, read_packets};
use outside::{ReadStop, Source, read_all};
use run_status::{Part, Stop};
use script_read::{Script, ScriptFault, check_script, items_are_named, read_script};
use std::alloc::Global;

/// Reads an input of requests to its end. With `json` they are JSON.
pub(crate) fn read_text<S: Source>(alloc: Global, input: &mut S, json: bool) -> Result<String, Stop>
    ensures read { IfOk result (λ text. InputIs (S.left input.old)
        (λ bytes. bytes ≡ string_bytes text)) }
    ensures read_to_end { is_past result ≡ true → IfSome (S.left input.new) (λ rest. rest ≡ []) }
    ensures ended { is_past result ≡ true → S.ends input.new ≡ ends_after (S.ends input.old) true }
    ensures no_further { IsEndedOnce (S.ends input.old) (S.ends input.new) }
    ensures stopped { IfErr result (InputStops (Enforce json) (S.left input.old)
        (Rose (S.faults input.old) (S.faults input.new))) }
    ensures counted { S.faults input.old ≤ S.faults input.new }
{
    let bytes = read_bytes(alloc, input)?;
    match String::from_utf8(bytes) {
        Ok(text) => Ok(text),
        Err(_) => Err(Stop::NoScript(ScriptFault::NotUtf8)),
    }
}

/// Reads an input to its end as a script.
pub(crate) fn read_items<S: Source>(
    alloc: Global,
    input: &mut S,
    json: bool,
) -> Result<Script, Stop>
    ensures read { IfOk result (λ script. SaysItems (Serve json) (S.left input.old)
        (map seen script)) }
    ensures have_names { IfOk result (λ script.
        All (λ item. is_named item ≡ true) (map seen script)) }
    ensures read_to_end { is_past result ≡ true → IfSome (S.left input.new) (λ rest. rest ≡ []) }
    ensures ended { is_past result ≡ true → S.ends input.new ≡ ends_after (S.ends input.old) true }
    ensures no_further { IsEndedOnce (S.ends input.old) (S.ends input.new) }
    ensures stopped { IfErr result (InputStops (Serve json) (S.left input.old)
        (Rose (S.faults input.old) (S.faults input.new))) }
    ensures counted { S.faults input.old ≤ S.faults input.new }
{
    items_are_named();
    let bytes = read_bytes(alloc, input)?;
    Ok(read_script(alloc, &bytes, json)?)
}

/// Reads an input to its end as the text of a script.
pub(crate) fn read_checked<S: Source>(
    alloc: Global,
    input: &mut S,
    json: bool,
) -> Result<String, Stop>
    ensures read { IfOk result (λ script. InputIs (S.left input.old)
        (λ bytes. bytes ≡ string_bytes script)) }
    ensures checked { IfOk result (λ script. (items : List Said)
        × IsScript json (string_bytes script) items) }
    ensures read_to_end { is_past result ≡ true → IfSome (S.left input.new) (λ rest. rest ≡ []) }
    ensures ended { is_past result ≡ true → S.ends input.new ≡ ends_after (S.ends input.old) true }
    ensures no_further { IsEndedOnce (S.ends input.old) (S.ends input.new) }
    ensures stopped { IfErr result (InputStops (Serve json) (S.left input.old)
        (Rose (S.faults input.old) (S.faults input.new))) }
    ensures counted { S.faults input.old ≤ S.faults input.new }
{
    let script = read_text(alloc, input, json)?;
    check_script(alloc, script.as_str(), json)?;
    Ok(script)
}

/// Reads an input to its end as packets.
pub(crate) fn read_shipped<S: Source>(alloc: Global, input: &mut S) -> Result<Packets, Stop>
    ensures read { IfOk result (λ packets. SaysPackets Follow (S.left input.old) packets) }
    ensures read_to_end { is_past result ≡ true → IfSome (S.left input.new) (λ rest. rest ≡ []) }
    ensures ended { is_past result ≡ true → S.ends input.new ≡ ends_after (S.ends input.old) true }
    ensures no_further { IsEndedOnce (S.ends input.old) (S.ends input.new) }
    ensures stopped { IfErr result (InputStops Follow (S.left input.old)
        (Rose (S.faults input.old) (S.faults input.new))) }
    ensures counted { S.faults input.old ≤ S.faults input.new }
{
    let bytes = read_bytes(alloc, input)?;
    Ok(read_packets(alloc, &bytes)?)
}

// Reads the bytes of an input to its end.
fn read_bytes<S: Source>(alloc: Global, input: &mut S) -> Result<Vec<u8>, Stop>
    ensures read { IfOk result (λ bytes. InputIs (S.left input.old)
        (λ told. told ≡ bytes.items)) }
    ensures read_to_end { OnOk result (IfSome (S.left input.new) (λ rest. rest ≡ [])) }
    ensures ends { S.ends input.new ≡ ends_after (S.ends input.old) (is_ok result) }
    ensures stopped { IfErr result (BytesStop (S.left input.old)
        (Rose (S.faults input.old) (S.faults input.new))) }
    ensures counted { S.faults input.old ≤ S.faults input.new }
{
    match read_all(alloc, input, Part::Input.limit()) {
        Ok(bytes) => Ok(bytes),
        Err(ReadStop::Failed) => Err(Stop::CannotRead(Part::Input)),
        Err(ReadStop::TooLong) => Err(Stop::TooLong(Part::Input)),
        Err(ReadStop::NoMemory) => Err(Stop::NoMemory),
    }
}
