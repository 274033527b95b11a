//! A service in its own process: four readers answer requests, each in a thread and at a seat of its own, while the main thread adds
//! rules and publishes them. What it prints is the same whatever the threads do first.
#![tactic(auto)]

mod administrator;
mod beside;
mod bulletin;
mod reader;
mod service;

use enforce_core::open_parts;
use run_status::Stop;
use service::{Summary, serve};
use std::alloc::Global;
use std::io;
use std::sync::Wait;
use std::thread::Threads;

// The model, by roles.
const MODEL: &[u8] = b"[request_definition]
r = sub, obj, act
[policy_definition]
p = sub, obj, act
[role_definition]
g = _, _
[policy_effect]
e = some(where (p.eft == allow))
[matchers]
m = g(r.sub, p.sub) && r.obj == p.obj && r.act == p.act
";

// The policy that it begins with.
const POLICY: &[u8] = b"p, reader, data1, read
";

fn main(rt: HostRuntime) -> io::Result<()> {
    match served(&rt, rt.alloc()) {
        Ok(summary) => {
            let (asked, wrong, version) = (summary.asked, summary.wrong, summary.version);
            println!(rt;
                "{asked} requests were judged beside {version} publishes, {wrong} in a wrong way"
            )
        }
        Err(stop) => {
            let code = stop.status().code();
            println!(rt; "the service stopped with status {code}")
        }
    }
}

// Opens the program and the desk of the two texts, and serves requests by them.
fn served<R: Threads + Wait + Sync>(rt: &R, alloc: Global) -> Result<Summary, Stop> {
    let parts = open_parts(alloc, MODEL, POLICY, b"")?;
    let (program, desk) = parts;
    let summary = serve(rt, alloc, &program, desk)?;
    Ok(summary)
}
