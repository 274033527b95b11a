//! Each export with memory, as C calls it.
use crate::calls::{casbin_call, casbin_publish, casbin_version};
use crate::codes::{CLOSED, NO_ROOM, NO_RULE, OK, SNAPSHOT};
use crate::decisions::Decision;
use crate::enforcers::{casbin_close, casbin_open, casbin_snapshot};
use crate::handle::Handle;
use crate::requests::{casbin_enforce, casbin_enforce_json};
use crate::shown::{casbin_policy, casbin_rule};
use std::alloc::Global;

const MODEL: &[u8] =
    b"[request_definition]\nr = sub, obj, act\n[policy_definition]\np = sub, obj, act\n[policy_effect]\ne = some(where (p.eft == allow))\n[matchers]\nm = r.sub == p.sub && r.obj == p.obj && r.act == p.act\n";

// Opens the handle over these rules, and gives the code.
fn opened(alloc: Global, policy: &[u8], handle: &mut Handle) -> u32 {
    let mut line = [0; 8];
    let mut size = 0;
    casbin_open(alloc, MODEL, policy, b"", handle, &mut line, &mut size)
}

// Asks a handle about alice, and gives the code.
fn asked(alloc: Global, handle: &mut Handle, told: &mut Decision) -> u32 {
    casbin_enforce(alloc, handle, b"alicedata1read", &[5, 10, 14], told)
}

// A decision before any call.
fn blank() -> Decision {
    Decision {
        kind: 9,
        version: 9,
        row: 9,
        cause: 9,
        at: 9,
    }
}

// Does one item, and gives the code.
fn called(alloc: Global, handle: &mut Handle, item: &[u8]) -> u32 {
    let mut line = [0; 8];
    let mut size = 0;
    casbin_call(alloc, handle, item, &mut line, &mut size)
}

#[test]
fn owners_ask_and_show(rt: HostRuntime) {
    let alloc = rt.alloc();
    let mut handle = Handle::closed(alloc);
    let mut told = blank();
    assert_eq!(rt; asked(alloc, &mut handle, &mut told), CLOSED);
    assert_eq!(rt; told.kind, 9);
    assert_eq!(rt; opened(alloc, b"p, alice\n", &mut handle), 4);
    assert_eq!(rt; opened(alloc, b"p, alice, data1, read\n", &mut handle), OK);
    assert_eq!(rt; asked(alloc, &mut handle, &mut told), OK);
    assert_eq!(rt; told.kind, 1);
    assert_eq!(rt; told.row, 1);
    let line = b"[\"bob\", \"data1\", \"read\"]";
    assert_eq!(rt;
        casbin_enforce_json(alloc, &mut handle, line, &mut told),
        OK
    );
    assert_eq!(rt; told.kind, 0);
    let mut room = [0; 8];
    let mut size = 0;
    assert_eq!(rt;
        casbin_rule(alloc, &mut handle, 2, &mut room, &mut size),
        NO_RULE
    );
    assert_eq!(rt;
        casbin_policy(alloc, &mut handle, &mut room, &mut size),
        NO_ROOM
    );
    assert_eq!(rt; size, 22);
    casbin_close(alloc, &mut handle);
    handle.gone();
}

#[test]
fn snapshots_stay_as_they_were_taken(rt: HostRuntime) {
    let alloc = rt.alloc();
    let mut handle = Handle::closed(alloc);
    let mut snapshot = Handle::closed(alloc);
    let mut told = blank();
    let mut version = 9;
    assert_eq!(rt; opened(alloc, b"p, alice, data1, read\n", &mut handle), OK);
    assert_eq!(rt; casbin_snapshot(alloc, &mut handle, &mut snapshot), OK);
    assert_eq!(rt;
        called(alloc, &mut handle, b"remove p, alice, data1, read"),
        OK
    );
    assert_eq!(rt; casbin_publish(alloc, &mut handle, &mut version), OK);
    assert_eq!(rt; version, 1);
    assert_eq!(rt; casbin_version(alloc, &mut snapshot, &mut version), OK);
    assert_eq!(rt; version, 0);
    assert_eq!(rt; asked(alloc, &mut snapshot, &mut told), OK);
    assert_eq!(rt; told.kind, 1);
    assert_eq!(rt;
        casbin_publish(alloc, &mut snapshot, &mut version),
        SNAPSHOT
    );
    casbin_close(alloc, &mut snapshot);
    casbin_close(alloc, &mut handle);
    snapshot.gone();
    handle.gone();
}
