ghost use Rattle.std.specs.Prelude.{◌≡◌, find, true};
ghost use Rattle.std.specs.Str.{bytes_eq};
ghost use Rattle.script_read.specs.Items.{verbs, word_of_verb};
ghost use Rattle.script_read.specs.Lines.{arguments_of, begins_block, ends_block, word_of};
ghost use Rattle.std.specs.List.{prefix_len};
ghost use Rattle.script_read.specs.Helps.Asks.{BeginsAsk};
ghost use Rattle.script_read.specs.Helps.Ends.{is_no_blank};

use text_parts::{before_blanks, is_blank, trimmed};

/// The words of calls.
#[derive(Clone, Copy)]
pub(crate) enum CallVerb {
    Add,
    Remove,
    RemoveFiltered,
    DeleteUser,
    DeleteRole,
}

/// The words whose arguments are fields.
#[derive(Clone, Copy)]
pub(crate) enum Verb {
    Call(CallVerb),
    Has,
    Rows,
    Roles,
    Users,
    Keep,
    History,
}

/// The word that such a text is.
pub(crate) fn verb_named(word: &str) -> Option<Verb>
    ensures { result ≡ find (λ named. bytes_eq word.now (word_of_verb named)) verbs }
{
    match word {
        "add" => Some(Verb::Call(CallVerb::Add)),
        "remove" => Some(Verb::Call(CallVerb::Remove)),
        "remove-filtered" => Some(Verb::Call(CallVerb::RemoveFiltered)),
        "delete-user" => Some(Verb::Call(CallVerb::DeleteUser)),
        "delete-role" => Some(Verb::Call(CallVerb::DeleteRole)),
        "has" => Some(Verb::Has),
        "rows" => Some(Verb::Rows),
        "roles" => Some(Verb::Roles),
        "users" => Some(Verb::Users),
        "keep" => Some(Verb::Keep),
        "history" => Some(Verb::History),
        _ => None,
    }
}

/// The word of a line.
pub(crate) fn word_in(line: &str) -> &str
    ensures { result.now ≡ word_of line.now }
{
    let end = word_end(line.as_bytes());
    &line[..end]
}

/// The word of a line, and its arguments.
pub(crate) fn word_and_arguments(line: &str) -> (&str, &str)
    ensures word { result.0.now ≡ word_of line.now }
    ensures arguments { result.1.now ≡ arguments_of line.now }
{
    if begins_ask(line) {
        return ("ask", behind_ask(line));
    }
    let end = word_end(line.as_bytes());
    (&line[..end], trimmed(&line[end..]))
}

/// Whether a line begins with `ask` and a blank, by which most lines of requests are told.
#[inline(always)]
pub(crate) fn begins_ask(line: &str) -> bool
    ensures { result ≡ true → BeginsAsk line.now }
{
    matches!(line.as_bytes(), [b'a', b's', b'k', b' ', ..])
}

/// The arguments of such a line.
#[inline(always)]
pub(crate) fn behind_ask(line: &str) -> &str
    requires { BeginsAsk line.now }
    ensures { result.now ≡ arguments_of line.now }
{
    trimmed(&line[3..])
}

// How many bytes stand before the first blank, or all.
fn word_end(line: &[u8]) -> usize
    ensures { result ≡ prefix_len is_no_blank line.now }
{
    line.iter().take_while(|byte| !is_blank(**byte)).count()
}

/// Whether the line begins a block: its word is `begin`.
pub fn begins_block(line: &str) -> bool
    ensures { result ≡ begins_block line.now }
{
    has_front(line) && word_in(line) == "begin"
}

// Whether the first byte of a line is that of `begin`: most lines are told from one that begins a block by it.
fn has_front(line: &str) -> bool
    ensures { begins_block line.now ≡ true → result ≡ true }
{
    let Some(byte) = line.as_bytes().first() else {
        return false;
    };
    *byte == b'b'
}

/// Whether the line ends a block: it is `end`, with blanks behind it at most.
pub fn ends_block(line: &str) -> bool
    ensures { result ≡ ends_block line.now }
{
    before_blanks(line) == "end"
}
