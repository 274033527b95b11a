ghost use Rattle.std.specs.Prelude.{◌≡◌, ◌∷◌, [], Some};
ghost use Rattle.outside.specs.Log.{Adds, call, has_failed};
ghost use Rattle.outside.specs.Helps.Fetched.{log_of};

use crate::shelf::Fetch;
use crate::text::Text;
use std::alloc::Global;
use std::marker::Model;

/// The fetches of a shelf in their order, as long as memory lasts for them: a shelf whose log is lost tells none.
#[derive(Drop)]
pub struct FetchLog {
    calls: Option<Vec<FetchCall>>,
}

/// A fetch of the file of that name, and whether the shelf failed.
#[derive(Drop)]
pub struct FetchCall {
    pub name: Text,
    pub failed: bool,
}

impl Model for FetchLog {
    ghost use Rattle.std.specs.Prelude.{List, Option};
    ghost use Rattle.outside.specs.declared.fetch_log.FetchCall.{FetchCall};
    ghost use Rattle.outside.specs.Helps.Fetched.{log_of};

    ghost Value = { Option (List FetchCall) };

    ghost view = { λ l. log_of l.calls };
}

impl FetchLog {
    /// A log without fetches. It takes no memory.
    pub fn new(alloc: Global) -> FetchLog
        ensures { result ≡ Some [] }
    {
        FetchLog {
            calls: Some(Vec::new(alloc)),
        }
    }

    /// Puts a fetch at the end, by what it came to, or lets the log go for want of memory.
    pub fn put(&mut self, alloc: Global, name: &str, fetched: &Result<Vec<u8>, Fetch>)
        ensures { Adds self.old self.new (call name.now (has_failed fetched.now) ∷ []) }
    {
        self.calls = with_call(alloc, self.calls.take(), name, has_failed(fetched));
    }
}

// Whether the shelf failed.
fn has_failed(fetched: &Result<Vec<u8>, Fetch>) -> bool
    ensures { result ≡ has_failed fetched.now }
{
    match fetched {
        Err(Fetch::Failed) => true,
        _ => false,
    }
}

// These fetches and one more, where they are still there and memory lasts.
fn with_call(
    alloc: Global,
    calls: Option<Vec<FetchCall>>,
    name: &str,
    failed: bool,
) -> Option<Vec<FetchCall>>
    ensures { Adds (log_of calls) (log_of result) (call name.now failed ∷ []) }
{
    let mut calls = calls?;
    let name = Text::from_str(alloc, name).ok()?;
    calls.push(FetchCall { name, failed }).ok()?;
    Some(calls)
}
