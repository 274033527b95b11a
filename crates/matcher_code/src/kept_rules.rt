ghost use Rattle.std.specs.Prelude.{◌≡◌, IfNone, IfOk, IfSome, IsTrue};
ghost use Rattle.model_conf.specs.ModelText.{ModelParts};
ghost use Rattle.perm_value.specs.Datum as datum;
ghost use Rattle.regex_gate.specs.Refusals.{RefusedOnly};
ghost use Rattle.matcher_meaning.specs.Cases.{where_refused};
ghost use Rattle.matcher_code.specs.Helps.Ends.{case_for};
ghost use Rattle.matcher_code.specs.Helps.Kept.{IsCodeOf, IsFrameOf, TextComesTo};
ghost use Rattle.matcher_code.specs.RunEnds.{IsAnswer};

use crate::asked::Asked;
use crate::frame::Frame;
use crate::links::Links;
use crate::no_truth::NoTruth;
use crate::rule_code::RuleCode;
use lru::LruCache;
use model_conf::Model;
use outside::NoMemory;
use regex_gate::Finder;
use std::alloc::Global;
use std::num::NonZeroUsize;

/// How many rule texts are kept.
const RULE_TEXTS: usize = 256;

/// The code of the rules that the texts say which an `eval` read last: of 256 texts at most, of models with the same
/// columns and relations. What an `eval` comes to does not depend on what is kept. Where there is no memory to keep a
/// rule, it is run all the same.
pub struct KeptRules {
    rules: Option<FrameRules>,
}

// Written out, so that a caller's proof sees one call and not the drop of each field.
impl Drop for KeptRules {
    fn drop(self) {
        let KeptRules { rules: _rules } = self;
    }
}

impl KeptRules {
    /// No rules. It takes no memory: the first rule takes that for the places of all.
    pub fn new() -> KeptRules {
        KeptRules { rules: None }
    }

    /// What the rule comes to that a text says, for an `eval` at a place, where its code is kept.
    pub(crate) fn truth_of<K: Links, P: Finder>(
        &mut self,
        model: &Model,
        text: &str,
        asked: Asked<'_>,
        at: u32,
        links: &K,
        finder: &mut P,
    ) -> Option<Result<bool, NoTruth>>
        ensures comes { IfSome result (IsAnswer (λ refused answer. TextComesTo (where_refused
            (case_for model.now asked.entry (K.shapes links.now) (K.policy links.now)) refused)
            at text.now answer) datum.truth
            (RefusedOnly (P.refusals finder.old) (P.refusals finder.new))) }
        ensures untouched { IfNone result (P.refusals finder.new ≡ P.refusals finder.old) }
    {
        let Some(rules) = &mut self.rules else {
            return None;
        };
        rules.truth_under(model, text.as_bytes(), asked, at, links, finder)
    }

    /// Keeps the code of the rule that a text says. What is kept for other columns or relations is let go.
    pub(crate) fn keep(&mut self, alloc: Global, model: &Model, text: &str, rule: RuleCode)
        requires { IsCodeOf model.now text.now rule }
    {
        self.turn_to(alloc, model);
        let Some(rules) = &mut self.rules else {
            return;
        };
        rules.keep(alloc, text.as_bytes(), rule);
    }

    // Lets go what is kept for other columns or relations than those of a model.
    fn turn_to(&mut self, alloc: Global, model: &Model)
        ensures { IfSome self.new.rules (λ rules. IsFrameOf rules model.now) }
    {
        if let Some(rules) = &self.rules {
            if rules.is_of(model) {
                return;
            }
        }
        self.rules = FrameRules::of_model(alloc, model).ok();
    }
}

// The code of rules of the models with one frame, each under the text that says the rule. Contracts see the frame.
struct FrameRules {
    frame: Frame,
    rules: LruCache<Vec<u8>, RuleCode>,
}

// Written out, so that a caller's proof sees one call and not the drop of each field.
impl Drop for FrameRules {
    fn drop(self) {
        let FrameRules {
            frame: _frame,
            rules: _rules,
        } = self;
    }
}

impl std::marker::Model for FrameRules {
    ghost use Rattle.matcher_code.specs.Helps.Kept.{AreKept};
    ghost use Rattle.matcher_code.specs.declared.frame.Frame.{Frame};

    ghost Value = { Frame };

    ghost view = { λ r. r.frame };

    ghost invariant = { λ r. AreKept r.frame r.rules };
}

impl FrameRules {
    // No rules, for the frame of a model.
    fn of_model(alloc: Global, model: &Model) -> Result<FrameRules, NoMemory>
        ensures { IfOk result (λ rules. IsFrameOf rules model.now) }
    {
        let Some(most) = NonZeroUsize::new(RULE_TEXTS) else {
            unreachable!()
        };
        let frame = Frame::of_model(alloc, model)?;
        Ok(FrameRules {
            frame,
            rules: LruCache::new(alloc, most)?,
        })
    }

    // Whether the frame is that of a model.
    fn is_of(&self, model: &Model) -> bool
        ensures { IsTrue result → IsFrameOf self.now model.now }
    {
        self.frame.is_of(model)
    }

    // What the rule comes to that a text says, for an `eval` at a place, where its code is kept for models as this one.
    fn truth_under<K: Links, P: Finder>(
        &mut self,
        model: &Model,
        text: &[u8],
        asked: Asked<'_>,
        at: u32,
        links: &K,
        finder: &mut P,
    ) -> Option<Result<bool, NoTruth>>
        ensures comes { IfSome result (IsAnswer (λ refused answer. TextComesTo (where_refused
            (case_for model.now asked.entry (K.shapes links.now) (K.policy links.now)) refused)
            at text.now answer) datum.truth
            (RefusedOnly (P.refusals finder.old) (P.refusals finder.new))) }
        ensures untouched { IfNone result (P.refusals finder.new ≡ P.refusals finder.old) }
    {
        if !self.frame.is_of(model) {
            return None;
        }
        let Some(rule) = self.rules.get_mut(text) else {
            return None;
        };
        if rule.at != at {
            return None;
        }
        Some(rule.truth(asked, links, finder))
    }

    // Keeps the code of the rule that a text says. Where there is no memory for it, nothing changes.
    fn keep(&mut self, alloc: Global, text: &[u8], rule: RuleCode)
        requires { (model : ModelParts) → IsFrameOf self.old model
            → IsCodeOf model text.now rule }
    {
        let Ok(key) = Vec::from_slice(alloc, text) else {
            return;
        };
        let _kept = self.rules.put(key, rule).is_ok();
    }
}
