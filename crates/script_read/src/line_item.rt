ghost use Rattle.std.specs.Prelude.{◌≡◌, ◌<◌, find, length};
ghost use Rattle.std.specs.Str.{bytes_eq};
ghost use Rattle.perm_base.specs.LineEnds.{AreFields};
ghost use Rattle.script_read.specs.Blocks.{at_line};
ghost use Rattle.script_read.specs.Helps.Given.{Gives, fields_read};
ghost use Rattle.script_read.specs.Readings.{request_read};
ghost use Rattle.script_read.specs.Items.{alone, line_item, verb_call, verb_item, verbs};
ghost use Rattle.script_read.specs.Items.{word_item, word_of_verb, worded};
ghost use Rattle.script_read.specs.Results.{mapped};
ghost use Rattle.script_read.specs.Said.{seen};

use crate::arguments::{count_of, filter_of, name_of, names_of, rows_of, rule_of};
use crate::fault::{LineCause, ScriptFault};
use crate::fields::fields_at;
use crate::item::Item;
use crate::requests::ask;
use crate::word::{CallVerb, Verb, verb_named, word_and_arguments};
use edit_calls::Call;
use outside::Text;
use std::alloc::Global;

/// Reads a line that begins no block. It has this number.
pub(crate) fn read_item(
    alloc: Global,
    json: bool,
    number: u32,
    line: &str,
) -> Result<Item, ScriptFault>
    ensures { Gives seen result
        (at_line number (line_item fields_read (request_read json) line.now)) }
{
    let (word, arguments) = word_and_arguments(line);
    word_item(alloc, json, number, word, arguments)
}

#[tactic(auto, unfolding(crate::specs::Items::word_item))]
// The item of a word and its arguments.
fn word_item(
    alloc: Global,
    json: bool,
    number: u32,
    word: &str,
    arguments: &str,
) -> Result<Item, ScriptFault>
    ensures { Gives seen result (at_line number
        (word_item fields_read (request_read json) word.now arguments.now)) }
{
    match word {
        "ask" => Ok(Item::Ask(ask(alloc, json, arguments)?)),
        "publish" => alone_item(alloc, number, Item::Publish, arguments),
        "sync" => alone_item(alloc, number, Item::Sync, arguments),
        _ => worded(alloc, number, word, arguments),
    }
}

/// Nothing, where no arguments stand.
pub(crate) fn alone(alloc: Global, number: u32, arguments: &str) -> Result<(), ScriptFault>
    ensures { Gives (λ none. none) result (at_line number (alone fields_read tt arguments.now)) }
{
    if arguments.is_empty() {
        return Ok(());
    }
    let _fields = fields_at(alloc, number, arguments)?;
    Err(LineCause::Fields.at(number))
}

// An item, where it stands alone.
fn alone_item(alloc: Global, number: u32, item: Item, arguments: &str) -> Result<Item, ScriptFault>
    ensures { Gives seen result (at_line number (alone fields_read (seen item) arguments.now)) }
{
    alone(alloc, number, arguments)?;
    Ok(item)
}

// The item of a word that takes fields.
fn worded(alloc: Global, number: u32, word: &str, arguments: &str) -> Result<Item, ScriptFault>
    ensures { Gives seen result (at_line number (worded fields_read
        (find (λ named. bytes_eq word.now (word_of_verb named)) verbs) arguments.now)) }
{
    let Some(verb) = verb_named(word) else {
        return Err(LineCause::Word.at(number));
    };
    let fields = fields_at(alloc, number, arguments)?;
    match verb_item(verb, fields) {
        Ok(item) => Ok(item),
        Err(cause) => Err(cause.at(number)),
    }
}

// What a word says with these fields.
fn verb_item(verb: Verb, fields: Vec<Text>) -> Result<Item, LineCause>
    requires rule { AreFields fields.items }
    requires some { 0 < length fields.items }
    ensures { mapped seen result ≡ verb_item verb fields.items }
{
    match verb {
        Verb::Call(verb) => Ok(Item::Edit(verb_call(verb, fields)?)),
        Verb::Has => {
            let (table, rule) = rule_of(fields)?;
            Ok(Item::Has { table, rule })
        }
        Verb::Rows => {
            let (table, at, values) = rows_of(fields)?;
            Ok(Item::Rows { table, at, values })
        }
        Verb::Roles => {
            let (relation, name, domain) = names_of(fields)?;
            Ok(Item::Roles {
                relation,
                name,
                domain,
            })
        }
        Verb::Users => {
            let (relation, name, domain) = names_of(fields)?;
            Ok(Item::Users {
                relation,
                name,
                domain,
            })
        }
        Verb::Keep => Ok(Item::Keep(count_of(fields)?)),
        Verb::History => Ok(Item::History(count_of(fields)?)),
    }
}

// The call of a word with these fields.
fn verb_call(verb: CallVerb, fields: Vec<Text>) -> Result<Call, LineCause>
    requires rule { AreFields fields.items }
    requires some { 0 < length fields.items }
    ensures { result ≡ verb_call verb fields.items }
{
    match verb {
        CallVerb::Add => {
            let (table, rule) = rule_of(fields)?;
            Ok(Call::Add { table, rule })
        }
        CallVerb::Remove => {
            let (table, rule) = rule_of(fields)?;
            Ok(Call::Remove { table, rule })
        }
        CallVerb::RemoveFiltered => {
            let (table, at, values) = filter_of(fields)?;
            Ok(Call::RemoveFiltered { table, at, values })
        }
        CallVerb::DeleteUser => Ok(Call::DeleteUser {
            name: name_of(fields)?,
        }),
        CallVerb::DeleteRole => Ok(Call::DeleteRole {
            name: name_of(fields)?,
        }),
    }
}
