ghost use Rattle.std.specs.Prelude.{◌≡◌, IfOk};
ghost use Rattle.regex_gate.specs.Finders.{IsSearched};
ghost use Rattle.regex_gate.specs.Found.{is_large};

use outside::NoMemory;
use regex::bytes::Regex;
use std::alloc::Global;

/// How many bytes a pattern has at most that is not large.
const SMALL: usize = 64;

/// Whether a pattern has a match in a text, or None where `regex` builds no search for it. What `regex` calls too big
/// though it is not large counts as want of memory.
pub(crate) fn search(alloc: Global, pattern: &[u8], text: &[u8]) -> Result<Option<bool>, NoMemory>
    ensures { IfOk result (IsSearched pattern.now text.now) }
{
    let Ok(source) = str::from_utf8(pattern) else {
        return Ok(None);
    };
    match Regex::new(alloc, source) {
        Ok(regex) => Ok(Some(regex.matcher(alloc)?.is_match(text))),
        Err(regex::Error::Syntax(_)) => Ok(None),
        Err(regex::Error::CompiledTooBig) if is_large(pattern) => Ok(None),
        Err(_) => Err(NoMemory),
    }
}

// Whether a pattern may be too large to be built.
fn is_large(pattern: &[u8]) -> bool
    ensures { result ≡ is_large pattern.now }
{
    pattern.len() > SMALL || pattern.contains(&b'{')
}
