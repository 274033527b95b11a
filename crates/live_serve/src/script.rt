ghost use Rattle.std.specs.Prelude.{◌≡◌, All, IfOk, MatchOption, MatchResult, map, true};
ghost use Rattle.log_ship.specs.PacketText.{ArePackets, IsPacketFault};
ghost use Rattle.log_ship.specs.declared.packet_fault.PacketFault as declared;
ghost use Rattle.script_read.specs.Named.{is_named};
ghost use Rattle.script_read.specs.Said.{seen};
ghost use Rattle.script_read.specs.Script.{IsScript, IsScriptFault};

use log_ship::{PacketFault, Packets, read_packets};
use outside::NoMemory;
use script_read::{Script, ScriptFault, items_are_named, read_script};
use std::alloc::Global;

/// The items of a section's lines, or why these are no script.
pub(crate) fn script_of(
    alloc: Global,
    lines: &[u8],
    json: bool,
) -> Result<Result<Script, ScriptFault>, NoMemory>
    ensures read { IfOk result (λ read. MatchResult read
        (λ script. IsScript json lines.now (map seen script))
        (λ fault. IsScriptFault json lines.now fault)) }
    ensures have_names { IfOk result (λ read. IfOk read (λ script.
        All (λ item. is_named item ≡ true) (map seen script))) }
{
    items_are_named();
    match read_script(alloc, lines, json) {
        Ok(script) => Ok(Ok(script)),
        Err(ScriptFault::NoMemory) => Err(NoMemory),
        Err(fault) => Ok(Err(fault)),
    }
}

/// The packets of a section's lines, or none where these are none.
pub(crate) fn packets_of(alloc: Global, lines: &[u8]) -> Result<Option<Packets>, NoMemory>
    ensures { IfOk result (λ read. MatchOption read
        ((fault : declared.PacketFault) × IsPacketFault lines.now fault)
        (λ packets. ArePackets lines.now packets)) }
{
    match read_packets(alloc, lines) {
        Ok(packets) => Ok(Some(packets)),
        Err(PacketFault::NoMemory) => Err(NoMemory),
        Err(_fault) => Ok(None),
    }
}
