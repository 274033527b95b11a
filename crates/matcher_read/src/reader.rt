ghost use Rattle.std.specs.Prelude.{◌≡◌, ◌≢◌, IfErr, IfOk, MatchResult};
ghost use Rattle.matcher_read.specs.Expression.{Expression, expression};
ghost use Rattle.matcher_read.specs.Faults.{IsFault};
ghost use Rattle.matcher_read.specs.Matcher.{IsMatcher};

use crate::count::has_too_many_nodes;
use crate::fault::MatcherFault;
use crate::forms::Forms;
use crate::parser::Parser;
use crate::tree::Tree;
use crate::words::Chain;
use std::alloc::Global;

// The greatest number of bytes, and of levels.
const MOST_BYTES: usize = 8192;

const MOST_LEVELS: u8 = 64;

/// Reads a matcher.
pub fn read_matcher(alloc: Global, text: &str) -> Result<Tree, MatcherFault>
    ensures found { IfOk result (λ tree. IsMatcher text.now (expression tree)) }
    ensures only { (e : Expression) → IsMatcher text.now e
        → MatchResult result (λ tree. expression tree ≡ e)
        (λ fault. fault ≡ MatcherFault.NoMemory) }
    ensures fault { IfErr result (λ fault. fault ≢ MatcherFault.NoMemory → IsFault text.now fault) }
    ensures only_fault { (first : MatcherFault) → IsFault text.now first
        → MatchResult result (λ tree. ⊥) (λ fault. fault ≢ MatcherFault.NoMemory → fault ≡ first) }
{
    if text.len() > MOST_BYTES {
        return Err(MatcherFault::TooLong);
    }
    let mut parser = Parser {
        alloc,
        tokens: Forms::new(text),
    };
    let tree = parser.chain(Chain::Or, MOST_LEVELS)?;
    parser.end(text.len())?;
    if has_too_many_nodes(Forms::new(text)) {
        return Err(MatcherFault::TooManyNodes);
    }
    Ok(tree)
}
