ghost use Rattle.std.specs.Prelude.{◌≡◌};
ghost use Rattle.answer_lines.specs.Printed.{shown_by, shown_by_verdict};

use crate::answer::Answer;
use effect_fold::Verdict;

/// What an answer shows: a verdict with the version of its policy, whether a call changed the policy, or a version that was
/// published.
#[derive(Clone, Copy, Debug, PartialEq, Eq)]
pub enum Shown {
    Allow(u32),
    Deny(u32),
    Fault(u32),
    Truth(bool),
    Published(u32),
    Other,
}

/// What an answer shows.
pub fn shown_by(answer: &Answer) -> Shown
    ensures { result ≡ shown_by answer.now }
{
    match answer {
        Answer::Decided {
            version,
            verdict,
            ..
        } => shown_by_verdict(*version, *verdict),
        Answer::Truth(truth) => Shown::Truth(*truth),
        Answer::Published(version) => Shown::Published(*version),
        _ => Shown::Other,
    }
}

/// What a verdict over a policy of this version shows.
pub(crate) fn shown_by_verdict(version: u32, verdict: Verdict) -> Shown
    ensures { result ≡ shown_by_verdict version verdict }
{
    match verdict {
        Verdict::Allow(_) => Shown::Allow(version),
        Verdict::Deny(_) => Shown::Deny(version),
        Verdict::Fault { .. } => Shown::Fault(version),
    }
}
