ghost use Rattle.std.specs.Prelude.{◌≡◌, IfErr, IfOk, IsTrue, OnErr, length, map, true};
ghost use Rattle.perm_value.specs.Seen.{datum};
ghost use Rattle.policy_state.specs.States.{tables};
ghost use Rattle.version_log.specs.Log.{versions};
ghost use Rattle.regex_gate.specs.Refusals.{IsRefused, IsUsed};
ghost use Rattle.matcher_meaning.specs.Comes.{takes_memory};
ghost use Rattle.matcher_meaning.specs.Verdicts.{IsJudged};
ghost use Rattle.decision.specs.Decisions.{IsJudgedWith, RefusedIn};
ghost use Rattle.decision.specs.Programs.{Suits};
ghost use Rattle.answer_cache.specs.Cached.{at_version, entries_of};
ghost use Rattle.answer_cache.specs.Answered.{IsAnswered};
ghost use Rattle.answer_cache.specs.Good.{AreJudged, IsGoodFor};

use crate::answer::{CachedAnswer, Kept};
use crate::cache::Cache;
use decision::{Program, Scratch, decide};
use effect_fold::Verdict;
use outside::NoMemory;
use perm_value::Request;
use policy_state::PolicyState;
use regex_gate::Finder;

/// The verdict of a program on a request over a policy, as `decide` has it, which is judged only where the cache has none
/// (Casbin, the cached enforcer). The cache first goes to the policy's version, and loses its entries where it was at another. A
/// request that then stands in the cache is answered from it, and the finder is not asked; its entry becomes the most recent.
/// Another is judged, and its verdict is kept as the most recent one; a full cache loses its last entry for it. The fault of a
/// pattern is not kept, since another finder, or the same one later, may not refuse it; nor is a verdict for which there is no
/// memory. Where judging runs out of memory the cache has gone to the policy's version, and else is as it was.
///
/// A cache that was opened for the state, or came from a call over it, is good: each of its verdicts is the one that judging
/// gives where nothing is refused.
pub fn decide_cached<P: Finder>(
    cache: &mut Cache,
    program: &Program,
    state: &PolicyState,
    request: &Request,
    finder: &mut P,
    scratch: &mut Scratch,
) -> Result<CachedAnswer, NoMemory>
    requires takes { length request.now ≡ length program.now.request }
    requires suits { Suits program.now state.now.shapes }
    requires good { IsGoodFor program.now state.now cache.old }
    ensures judged { IfOk result (λ answer. IsJudged
        program.now state.now.shapes (tables state.now) (map datum request.now)
        (IsRefused (P.refusals finder.old) (P.refusals finder.new)) answer.verdict) }
    ensures refused { IfOk result (λ answer. IsJudgedWith
        program.now state.now.shapes (tables state.now) (map datum request.now)
        (RefusedIn program.now.effect (P.refusals finder.old) (P.refusals finder.new))
        answer.verdict) }
    ensures answered { IfOk result (λ answer. IsAnswered (map datum request.now)
        (at_version (versions state.now.log) cache.old) cache.new answer) }
    ensures untouched { IfOk result (λ answer. IsTrue answer.hit
        → P.refusals finder.new ≡ P.refusals finder.old) }
    ensures good { AreJudged program.now state.now.shapes (tables state.now) (entries_of cache.new) }
    ensures version { cache.new.version ≡ versions state.now.log }
    ensures capacity { cache.new.capacity ≡ cache.old.capacity }
    ensures no_memory { IfErr result (λ e. takes_memory program.now.matcher ≡ true) }
    ensures stopped { OnErr result (cache.new ≡ at_version (versions state.now.log) cache.old) }
    ensures used { IsUsed (P.refusals finder.old) (P.refusals finder.new) }
{
    cache.move_to(state.version());
    if let Some(verdict) = cache.find(request) {
        return Ok(CachedAnswer {
            verdict,
            hit: true,
            kept: Kept::Yes,
        });
    }
    let verdict = decide(program, state, request, finder, scratch)?;
    let kept = cache.keep(request, verdict);
    Ok(CachedAnswer {
        verdict,
        hit: false,
        kept,
    })
}
