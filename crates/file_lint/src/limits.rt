ghost use Rattle.std.specs.Prelude.{◌≡◌};
ghost use Rattle.file_lint.specs.PolicyWords.{limit_words};

use policy_table::Limit;

/// The words of a limit that is passed.
pub(crate) fn limit_words(what: Limit) -> &'static str
    ensures { result.now ≡ limit_words what }
{
    match what {
        Limit::PolicyRows => "full: a policy has 200000 rules of p at most",
        Limit::RoleRows => "full: a policy has 200000 rules of all role relations at most",
        Limit::PatternRows => {
            "full: a policy has 64 rules of role relations at most whose domain is a pattern"
        }
        Limit::Domains => {
            "full: a policy has 16384 different pairs of a role relation and a domain at most"
        }
        Limit::Edits => "full: too many edits",
    }
}
