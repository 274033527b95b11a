ghost use Rattle.std.specs.Prelude.{◌≡◌, ◌-◌, ◌++◌, IfOk, OnOk, codes, false, option_map, string_bytes};
ghost use Rattle.matcher_read.specs.Calls.{function_of};
ghost use Rattle.file_lint.specs.ModelNames.{key_and_rest, lower_of};
ghost use Rattle.file_lint.specs.ModelWords.{arguments_words, case_words, column_text, column_words, columns_words, effect_words, error_at, error_of, fault_words, function_words, is_of_second, is_of_third, is_second, line_words, matcher_place, matcher_words, missing_words, or_near, place_of, repeated_words, role_words, section_words, shape_words, undeclared_words};
ghost use Rattle.file_lint.specs.Places.{file_lines, from_key, front_at, line_at, place_of_value, rest_at};

use crate::finding::{Finding, Level};
use crate::hints::{begins_so, hint};
use crate::lines::{cut_at_equals, from_key, key_in, line_at};
use crate::mended::{key_text, relation_key, word_front};
use crate::names::{has_order_mark, header_in, key_and_rest, lower_of, section_of};
use crate::near::{near_function, near_section};
use crate::places::Place;
use crate::texts::{push, push_number, push_quoted};
use crate::values::{front_at, front_of, place_of_value, rest_at};
use matcher_read::{Function, MatcherFault};
use model_conf::{Key, ModelFault};
use outside::{NoMemory, Text};
use std::alloc::Global;
use text_parts::{behind_blanks, has_byte, trimmed};

/// The finding of a fault of a text.
#[tactic(auto, unfolding(crate::specs::ModelWords::error_of))]
pub(crate) fn error_of(alloc: Global, text: &str, why: ModelFault) -> Result<Finding, NoMemory>
    ensures { IfOk result (λ found. found ≡ error_of why text.now) }
{
    let at = place_of(text, why);
    let mut words = String::new(alloc);
    push_words(&mut words, text, why, &at)?;
    Ok(error_at(&at, words))
}

/// An error with these words at a place.
pub(crate) fn error_at(at: &Place, words: String) -> Finding
    ensures { result ≡ error_at at.now (string_bytes words) }
{
    Finding {
        line: at.line,
        column: at.column,
        level: Level::Error,
        text: Text::from_string(words),
    }
}

// Where a fault stands.
fn place_of(text: &str, why: ModelFault) -> Place
    ensures { result ≡ place_of why text.now }
{
    match why {
        ModelFault::TooLong
        | ModelFault::NotUtf8
        | ModelFault::Missing { .. }
        | ModelFault::NoMemory => Place { line: 1, column: 1 },
        ModelFault::Line { line } => front_of(text, u64::from(line)),
        ModelFault::UnknownSection { line } => front_of(text, u64::from(line)),
        ModelFault::UnknownKey { line } => front_of(text, u64::from(line)),
        ModelFault::RepeatedKey { line } => front_of(text, u64::from(line)),
        ModelFault::Columns { key } => place_of_value(text, key_text(key), 0),
        ModelFault::RoleShape { relation } => place_of_value(text, relation_key(relation), 0),
        ModelFault::UnknownEffect => place_of_value(text, "e", 0),
        ModelFault::Matcher(inner) => in_matcher(text, matcher_place(inner)),
        ModelFault::UnknownColumn { at } => in_matcher(text, at),
        ModelFault::RoleUse { at } => in_matcher(text, at),
    }
}

// Where a byte of the matcher stands, counted from 1.
fn in_matcher(text: &str, at: u32) -> Place
    ensures { result ≡ place_of_value (codes "m") (at - 1) text.now }
{
    place_of_value(text, "m", at.saturating_sub(1))
}

// Where a fault of a matcher stands in its text, counted from 1.
fn matcher_place(why: MatcherFault) -> u32
    ensures { result ≡ matcher_place why }
{
    match why {
        MatcherFault::TooLong | MatcherFault::TooManyNodes | MatcherFault::NoMemory => 0,
        MatcherFault::Unexpected { at }
        | MatcherFault::OpenText { at }
        | MatcherFault::NumberTooWide { at }
        | MatcherFault::UnknownFunction { at }
        | MatcherFault::WrongArguments { at }
        | MatcherFault::TooDeep { at } => at,
    }
}

// Appends the words of a fault at its place.
fn push_words(words: &mut String, text: &str, why: ModelFault, at: &Place) -> Result<(), NoMemory>
    ensures { OnOk result (string_bytes words.new ≡ string_bytes words.old
        ++ fault_words why text.now (line_at at.now.line (file_lines text.now))
        (front_at at.now text.now) (rest_at at.now text.now)) }
{
    let line = line_at(text, at.line);
    let rest = rest_at(text, at);
    match why {
        ModelFault::TooLong => push(words, "the model has more than 65536 bytes"),
        ModelFault::NotUtf8 => push(words, "not UTF-8"),
        ModelFault::Line { .. } => push_line_words(words, line),
        ModelFault::UnknownSection { .. } => push_section_words(words, header_in(line)),
        ModelFault::UnknownKey { .. } => push_case_words(words, key_in(line)),
        ModelFault::RepeatedKey { .. } => push_repeated_words(words, key_in(line)),
        ModelFault::Missing { key } => push(words, missing_words(key)),
        ModelFault::Columns { key } => push_columns_words(words, key),
        ModelFault::RoleShape { relation } => push_shape_words(words, relation),
        ModelFault::UnknownEffect => push_effect_words(words),
        ModelFault::Matcher(inner) => push_matcher_words(words, inner, front_at(text, at), rest),
        ModelFault::UnknownColumn { .. } => push_column_words(words, rest),
        ModelFault::RoleUse { .. } => push_role_words(words, text, word_front(rest)),
        ModelFault::NoMemory => Ok(()),
    }
}

// Appends the words of a line that is neither a header nor a key line, or of a key before any section.
fn push_line_words(words: &mut String, line: &str) -> Result<(), NoMemory>
    ensures { OnOk result (string_bytes words.new
        ≡ string_bytes words.old ++ line_words line.now) }
{
    if has_order_mark(line) {
        return push(
            words,
            "begins with a byte-order mark: take its three bytes away",
        );
    }
    if begins_so(behind_blanks(line).as_bytes(), b"//") {
        return push(words, "a comment begins with `#`");
    }
    if has_byte(line, b'=') {
        push_quoted(words, key_in(line))?;
        return push(words, " stands before any section");
    }
    push_quoted(words, trimmed(line))?;
    push(words, " is neither `[section]` nor `key = value`")
}

fn push_section_words(words: &mut String, name: &str) -> Result<(), NoMemory>
    ensures { OnOk result (string_bytes words.new
        ≡ string_bytes words.old ++ section_words name.now) }
{
    push(words, "unknown section ")?;
    push_quoted(words, name)?;
    push_near(
        words,
        ": the sections are request_definition, policy_definition, role_definition, policy_effect, matchers",
        near_section(name),
    )?;
    Ok(())
}

// Appends the name that was nearly written, or all that may stand there.
fn push_near(words: &mut String, all: &str, near: Option<&str>) -> Result<(), NoMemory>
    ensures { OnOk result (string_bytes words.new ≡ string_bytes words.old
        ++ or_near all.now (option_map (λ name. name.now) near.entry)) }
{
    let Some(name) = near else {
        push(words, all)?;
        return Ok(());
    };
    push(words, ": did you mean ")?;
    push(words, name)?;
    Ok(())
}

fn push_case_words(words: &mut String, key: &str) -> Result<(), NoMemory>
    ensures { OnOk result (string_bytes words.new
        ≡ string_bytes words.old ++ case_words key.now (lower_of key.now)) }
{
    push(words, "unknown key ")?;
    push_quoted(words, key)?;
    if let Some(lower) = lower_of(key) {
        push(words, ": keys are in lower case, write ")?;
        push(words, lower)?;
        return Ok(());
    }
    if is_second(key) {
        push(words, ": a model has one r, one p, one e and one m")?;
        return Ok(());
    }
    push(
        words,
        ": r stands in [request_definition], p in [policy_definition], g to g8 in [role_definition], e in [policy_effect], m in [matchers]",
    )?;
    Ok(())
}

fn is_second(key: &str) -> bool
    ensures { result ≡ is_second key.now }
{
    is_of_second(key) || is_of_third(key)
}

fn is_of_second(key: &str) -> bool
    ensures { result ≡ is_of_second key.now }
{
    key == "r2" || key == "p2" || key == "e2" || key == "m2"
}

fn is_of_third(key: &str) -> bool
    ensures { result ≡ is_of_third key.now }
{
    key == "r3" || key == "p3" || key == "e3" || key == "m3"
}

fn push_repeated_words(words: &mut String, key: &str) -> Result<(), NoMemory>
    ensures { OnOk result (string_bytes words.new
        ≡ string_bytes words.old ++ repeated_words key.now) }
{
    push_quoted(words, key)?;
    push(words, " stands here again: a model has each key once")
}

fn missing_words(key: Key) -> &'static str
    ensures { result.now ≡ missing_words key }
{
    match key {
        Key::R => "r is missing: write `r = sub, obj, act` in [request_definition]",
        Key::P => "p is missing: write `p = sub, obj, act` in [policy_definition]",
        Key::E => "e is missing: write `e = some(where (p.eft == allow))` in [policy_effect]",
        Key::M => {
            "m is missing: write `m = r.sub == p.sub && r.obj == p.obj && r.act == p.act` in [matchers]"
        }
    }
}

fn push_columns_words(words: &mut String, key: Key) -> Result<(), NoMemory>
    ensures { OnOk result (string_bytes words.new
        ≡ string_bytes words.old ++ columns_words key) }
{
    push(words, "the columns of ")?;
    push(words, key_text(key))?;
    push(
        words,
        " are 1 to 32 different names of letters, digits and `_`, joined by commas",
    )?;
    Ok(())
}

fn push_shape_words(words: &mut String, relation: u8) -> Result<(), NoMemory>
    ensures { OnOk result (string_bytes words.new
        ≡ string_bytes words.old ++ shape_words relation) }
{
    push(words, relation_key(relation))?;
    push(words, " is `_, _`, or `_, _, _` with domains")
}

fn push_effect_words(words: &mut String) -> Result<(), NoMemory>
    ensures { OnOk result (string_bytes words.new ≡ string_bytes words.old ++ effect_words) }
{
    push(
        words,
        "unknown effect: write `some(where (p.eft == allow))`, `!some(where (p.eft == deny))`, `some(where (p.eft == allow)) && !some(where (p.eft == deny))`, ",
    )?;
    push(
        words,
        "`priority(p.eft) || deny`, or `subjectPriority(p.eft) || deny` in a model with g, and a column dom where g has domains",
    )
}

// Appends why a text is no matcher, by what stands in front of the place and from it on.
fn push_matcher_words(
    words: &mut String,
    why: MatcherFault,
    before: &[u8],
    rest: &[u8],
) -> Result<(), NoMemory>
    ensures { OnOk result (string_bytes words.new
        ≡ string_bytes words.old ++ matcher_words why before.now rest.now) }
{
    match why {
        MatcherFault::TooLong => push(words, "the matcher has more than 8192 bytes"),
        MatcherFault::Unexpected { .. } => push(words, hint(before, rest)),
        MatcherFault::OpenText { .. } => push(words, "this quote is never closed"),
        MatcherFault::NumberTooWide { .. } => {
            push(words, "the number is above 9223372036854775807")
        }
        MatcherFault::UnknownFunction { .. } => push_function_words(words, word_front(rest)),
        MatcherFault::WrongArguments { .. } => push_arguments_words(words, word_front(rest)),
        MatcherFault::TooDeep { .. } => push(words, "more than 64 levels enclose this"),
        MatcherFault::TooManyNodes => push(words, "the matcher has more than 1024 parts"),
        MatcherFault::NoMemory => Ok(()),
    }
}

fn push_function_words(words: &mut String, name: &str) -> Result<(), NoMemory>
    ensures { OnOk result (string_bytes words.new
        ≡ string_bytes words.old ++ function_words name.now) }
{
    push(words, "unknown function ")?;
    push_quoted(words, name)?;
    push_near(
        words,
        ": the functions are keyMatch to keyMatch5, regexMatch, ipMatch, globMatch, keyGet to keyGet3",
        near_function(name),
    )?;
    Ok(())
}

fn push_column_words(words: &mut String, rest: &[u8]) -> Result<(), NoMemory>
    ensures { OnOk result (string_bytes words.new
        ≡ string_bytes words.old ++ column_words (key_and_rest rest.now)) }
{
    let Some((key, name)) = key_and_rest(rest) else {
        return push(
            words,
            "the column that eval reads is not declared in [policy_definition]",
        );
    };
    push_undeclared(words, key, name)
}

// Appends the words of a column that is not declared, by its key and what stands behind the `.`.
fn push_undeclared(words: &mut String, key: Key, name: &[u8]) -> Result<(), NoMemory>
    ensures { OnOk result (string_bytes words.new
        ≡ string_bytes words.old ++ undeclared_words key name.now) }
{
    push(words, "\"")?;
    push_column(words, key, name)?;
    push(words, "\" is not declared in [")?;
    push(words, section_of(key))?;
    push(words, "]")?;
    Ok(())
}

// Appends a column behind its key.
fn push_column(words: &mut String, key: Key, name: &[u8]) -> Result<(), NoMemory>
    ensures { OnOk result (string_bytes words.new
        ≡ string_bytes words.old ++ column_text key name.now) }
{
    push(words, key_text(key))?;
    push(words, ".")?;
    push(words, word_front(name))
}

// Appends the words of another number of arguments than a function, `eval` or a role relation takes.
fn push_arguments_words(words: &mut String, name: &str) -> Result<(), NoMemory>
    ensures { OnOk result (string_bytes words.new
        ≡ string_bytes words.old ++ arguments_words name.now (function_of name.now)) }
{
    if let Some(function) = Function::of_name(name) {
        push(words, name)?;
        push(words, " takes ")?;
        push_number(words, u64::from(function.arguments()))?;
        return push(words, " arguments");
    }
    if name == "eval" {
        return push(words, "eval takes one column of p, as eval(p.rule)");
    }
    push(words, name)?;
    push(words, " takes 2 names, or 3 with a domain")
}

fn push_role_words(words: &mut String, text: &str, name: &str) -> Result<(), NoMemory>
    ensures { OnOk result (string_bytes words.new ≡ string_bytes words.old
        ++ role_words name.now (from_key name.now false (file_lines text.now))) }
{
    push(words, name)?;
    let Some((_, line, _)) = from_key(text, name) else {
        return push(words, " is not declared in [role_definition]");
    };
    if begins_so(behind_blanks(cut_at_equals(line).1).as_bytes(), b"_, _, _") {
        return push(words, " takes 3 names, 2 stand here");
    }
    push(words, " takes 2 names, 3 stand here")
}
