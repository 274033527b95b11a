ghost use Rattle.std.specs.Prelude.{◌≡◌, ◌+◌, option_map, position, MatchOption, false};
ghost use Rattle.std.specs.Str.{bytes_eq};
ghost use Rattle.matcher_read.specs.Calls.{callee_of, is_known, relation_names, takes as accepts};
ghost use Rattle.matcher_read.specs.Helps.TakenTokens.{callee};
ghost use Rattle.matcher_read.specs.Helps.TokenLists.{pieces};

use crate::tree::Function;

/// What is called: a function, a role relation by its number, or `eval`.
#[derive(Clone, Copy)]
pub(crate) enum Called {
    Function(Function),
    Relation(u8),
    Eval,
}

/// What a name calls, if there is such a function or role relation.
pub(crate) fn called_by(name: &str) -> Option<Called>
    ensures { MatchOption result (is_known (callee_of (pieces name.now)) ≡ false)
        (λ called. callee_of (pieces name.now) ≡ callee called) }
{
    if let Some(function) = Function::of_name(name) {
        return Some(Called::Function(function));
    }
    if let Some(relation) = relation_by(name) {
        return Some(Called::Relation(relation));
    }
    if name == "eval" {
        return Some(Called::Eval);
    }
    None
}

// The number of a role relation.
fn relation_by(name: &str) -> Option<u8>
    ensures { result
        ≡ option_map (λ place. place + 1) (position (bytes_eq name.now) relation_names) }
{
    match name {
        "g" => Some(1),
        "g2" => Some(2),
        "g3" => Some(3),
        "g4" => Some(4),
        "g5" => Some(5),
        "g6" => Some(6),
        "g7" => Some(7),
        "g8" => Some(8),
        _ => None,
    }
}

/// Whether so many arguments are right; a role relation is asked with two names, or with two and a domain. No list of
/// arguments is right for `eval`.
pub(crate) fn takes(called: Called, arguments: usize) -> bool
    ensures { result ≡ accepts (callee called) arguments }
{
    match called {
        Called::Function(function) => arguments == function.arguments() as usize,
        Called::Relation(_) => arguments == 2 || arguments == 3,
        Called::Eval => false,
    }
}
