ghost use Rattle.std.specs.Prelude.{◌≡◌, ◌≤◌, ◌++◌, drop, length};
ghost use Rattle.casbin_c.specs.Told.{Writes, WritesStop};

use crate::codes::{NO_ROOM, OK};
use enforce_core::line_of_stop;
use outside::Text;
use run_status::Stop;
use std::alloc::Global;

/// Writes a text to the start of a room where it fits, and tells its length.
pub(crate) fn write_text(text: &Text, room: &mut [u8], size: &mut usize) -> u32
    ensures { Writes text.now room.old room.new result size.new }
{
    write_bytes(text.bytes(), room, size)
}

// Writes bytes to the start of a room where they fit, and tells how many they are.
fn write_bytes(bytes: &[u8], room: &mut [u8], size: &mut usize) -> u32
    ensures { Writes bytes.now room.old room.new result size.new }
{
    *size = bytes.len();
    if bytes.len() > room.len() {
        return NO_ROOM;
    }
    put_bytes(bytes, room);
    OK
}

// Writes bytes to the start of a room that has place for them.
fn put_bytes(bytes: &[u8], room: &mut [u8])
    requires { length bytes.now ≤ length room.old }
    ensures { room.new ≡ bytes.now ++ drop (length bytes.now) room.old }
{
    room[..bytes.len()].copy_from_slice(bytes);
}

/// Writes the line by which the program tells a stop; where memory runs out for it there is none.
pub(crate) fn write_stop(alloc: Global, stop: Stop, room: &mut [u8], size: &mut usize)
    ensures { WritesStop stop room.old room.new size.new }
{
    let Ok(line) = line_of_stop(alloc, stop) else {
        *size = 0;
        return;
    };
    let _code = write_bytes(&line, room, size);
}
