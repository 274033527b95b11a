ghost use Rattle.std.specs.Prelude.{◌≡◌, true, false, [], ◌∷◌, None};
ghost use Rattle.matcher_read.specs.Expression.{function};
ghost use Rattle.matcher_meaning.specs.Calls.{IsInBlock, OfThree, OfTwo, searched};
ghost use Rattle.matcher_meaning.specs.CaseCalls.{Gives};
ghost use Rattle.matcher_meaning.specs.Cases.{Case};
ghost use Rattle.matcher_meaning.specs.Meaning.{is_search};
ghost use Rattle.perm_value.specs.Seen.{datum_of_view};
ghost use Rattle.regex_gate.specs.Refusals.{RefusedOnly};
ghost use Rattle.matcher_code.specs.Helps.Ends.{CallEnds, EndsIn, answer_of, callee, over_tables, refused_by};

use crate::faults::{fault, kind};
use crate::halt::Halt;
use crate::links::Links;
use effect_fold::{Cause, Fault};
use ip_match::{IpFault, ip_match};
use key_match::{
    glob_match, key_get, key_get2, key_get3, key_match, key_match2, key_match3, key_match4,
    key_match5,
};
use matcher_read::Function;
use perm_value::View;
use regex_gate::{FindStop, Finder};

/// What is called: a function, or a role relation by its number.
#[derive(Clone, Copy)]
pub(crate) enum Called {
    Function(Function),
    Relation(u8),
}

/// What a call gives for two values.
pub(crate) fn call_of_two<'a, K: Links, P: Finder>(
    at: u32,
    called: Called,
    first: &View<'a>,
    second: &View<'a>,
    links: &K,
    finder: &mut P,
) -> Result<View<'a>, Halt<'a>>
    ensures value { (case : Case)
        → CallEnds (over_tables case (K.shapes links.now) (K.policy links.now)) at (callee called)
        (datum_of_view first.now ∷ datum_of_view second.now ∷ []) result }
    ensures refused { RefusedOnly (P.refusals finder.old) (P.refusals finder.new)
        (refused_by result) }
{
    match (*first, *second) {
        (View::Text(first), View::Text(second)) => match called {
            Called::Function(function) => of_two(at, function, first, second, finder),
            Called::Relation(number) => Ok(View::Truth(links.linked(number, first, second, None))),
        },
        _ => Err(Halt::Fault(kind(at))),
    }
}

/// What a call gives for three values.
pub(crate) fn call_of_three<'a, K: Links>(
    at: u32,
    called: Called,
    first: &View<'a>,
    second: &View<'a>,
    third: &View<'a>,
    links: &K,
) -> Result<View<'a>, Fault>
    ensures { (case : Case)
        → Gives (over_tables case (K.shapes links.now) (K.policy links.now)) at (callee called)
        (datum_of_view first.now ∷ datum_of_view second.now ∷ datum_of_view third.now ∷ [])
        (answer_of result) }
{
    match (*first, *second, *third) {
        (View::Text(first), View::Text(second), View::Text(third)) => match called {
            Called::Function(function) => of_three(at, function, first, second, third),
            Called::Relation(number) => {
                Ok(View::Truth(links.linked(number, first, second, Some(third))))
            }
        },
        _ => Err(kind(at)),
    }
}

// What a function gives for two texts.
fn of_two<'a, P: Finder>(
    at: u32,
    called: Function,
    first: &'a [u8],
    second: &'a [u8],
    finder: &mut P,
) -> Result<View<'a>, Halt<'a>>
    ensures value { EndsIn (λ refused r. OfTwo refused at called first.now second.now r)
        datum_of_view (is_search (function called)) result }
    ensures refused { RefusedOnly (P.refusals finder.old) (P.refusals finder.new)
        (refused_by result) }
{
    match called {
        Function::RegexMatch => search(at, first, second, finder),
        _ => Ok(of_two_texts(at, called, first, second)?),
    }
}

// What a function that searches nothing gives for two texts.
fn of_two_texts<'a>(
    at: u32,
    called: Function,
    first: &'a [u8],
    second: &'a [u8],
) -> Result<View<'a>, Fault>
    requires { is_search (function called) ≡ false }
    ensures { OfTwo None at called first.now second.now (answer_of result) }
{
    let truth = match called {
        Function::KeyMatch => key_match(first, second),
        Function::KeyMatch2 => key_match2(first, second),
        Function::KeyMatch3 => key_match3(first, second),
        Function::KeyMatch4 => key_match4(first, second),
        Function::KeyMatch5 => key_match5(first, second),
        Function::GlobMatch => glob_match(first, second),
        Function::IpMatch => return lies_in(at, first, second),
        Function::KeyGet => return Ok(View::Text(key_get(first, second))),
        Function::KeyGet2 | Function::KeyGet3 => return Err(kind(at)),
        Function::RegexMatch => unreachable!(),
    };
    Ok(View::Truth(truth))
}

// What a function gives for three texts.
fn of_three<'a>(
    at: u32,
    called: Function,
    first: &'a [u8],
    second: &[u8],
    third: &[u8],
) -> Result<View<'a>, Fault>
    ensures { OfThree at called first.now second.now third.now (answer_of result) }
{
    match called {
        Function::KeyGet2 => Ok(View::Text(key_get2(first, second, third))),
        Function::KeyGet3 => Ok(View::Text(key_get3(first, second, third))),
        _ => Err(kind(at)),
    }
}

// Whether an address lies in a block.
fn lies_in<'a>(at: u32, text: &[u8], block: &[u8]) -> Result<View<'a>, Fault>
    ensures { IsInBlock at text.now block.now (answer_of result) }
{
    match ip_match(text, block) {
        Ok(inside) => Ok(View::Truth(inside)),
        Err(IpFault::BadAddress) => Err(fault(Cause::BadAddress, at)),
        Err(IpFault::BadBlock) => Err(fault(Cause::BadBlock, at)),
    }
}

// Whether the pattern is found in a text.
fn search<'a, P: Finder>(
    at: u32,
    text: &'a [u8],
    pattern: &'a [u8],
    finder: &mut P,
) -> Result<View<'a>, Halt<'a>>
    ensures value { EndsIn (λ refused r. r ≡ searched refused at text.now pattern.now)
        datum_of_view true result }
    ensures refused { RefusedOnly (P.refusals finder.old) (P.refusals finder.new)
        (refused_by result) }
{
    match finder.find(pattern, text) {
        Ok(found) => Ok(View::Truth(found)),
        Err(FindStop::Refused) => Err(Halt::Refused { at, pattern }),
        Err(FindStop::NoMemory) => Err(Halt::NoMemory),
    }
}
