ghost use Rattle.std.specs.Prelude.{◌≡◌, ◌+◌, ◌<◌, ◌^◌, IfOk, length, ok_or, vec_len};
ghost use Rattle.perm_base.specs.LineEnds.{AreFields};
ghost use Rattle.script_read.specs.Blocks.{at_line, block_call, block_of, block_of_word, call_of};
ghost use Rattle.script_read.specs.Blocks.{filtered, inner_rule, of_plain, pairs_of, plain_block};
ghost use Rattle.script_read.specs.Blocks.{rule_in, rules_of, same_table, table_of_block};
ghost use Rattle.script_read.specs.Helps.Ends.{before_end};
ghost use Rattle.script_read.specs.Helps.Given.{Gives, fields_read};
ghost use Rattle.text_parts.specs.Full.{full_lines};
ghost use Rattle.text_parts.specs.Numbered.{line as line_at};

use crate::arguments::{filter_of, rule_of};
use crate::fault::{LineCause, ScriptFault};
use crate::fields::fields_at;
use crate::line_item::alone;
use crate::word::{ends_block, word_and_arguments};
use edit_calls::{Call, Pairs};
use outside::{NoMemory, Text};
use perm_base::{Rule, Rules, TableId};
use std::alloc::Global;
use text_parts::{given_number, next_full_line};

// The greatest number of rules of a block.
const MOST_RULES: usize = 4_294_967_295;

/// The kinds of blocks.
#[derive(Drop)]
pub(crate) enum Block {
    AddAll,
    AddEx,
    RemoveAll,
    Update,
    UpdateFiltered {
        table: TableId,
        at: u32,
        values: Rule,
    },
}

/// Reads the block that the line of this number begins. Behind that line stands this text; the line
/// that ends the block has the number that is given as the end.
pub(crate) fn read_block(
    alloc: Global,
    number: u64,
    begin: &str,
    end: Option<u64>,
    text: &str,
) -> Result<Call, ScriptFault>
    requires { number + 1 + length text.now < 2 ^ 64 }
    ensures { Gives (λ call. call) result (block_call fields_read (line_at number begin.now)
        (before_end (full_lines (number + 1) text.now)) end) }
{
    let first = given_number(number);
    let kind = read_kind(alloc, first, begin)?;
    let Some(last) = end else {
        return Err(ScriptFault::OpenBatch { line: first });
    };
    let (table, rules) = read_rules(alloc, kind.table(), text, number + 1)?;
    call_of(alloc, given_number(last), kind, table, rules)
}

impl Block {
    // The table that its rules must have before its first rule.
    fn table(&self) -> Option<TableId>
        ensures { result ≡ table_of_block self.now }
    {
        match self {
            Block::UpdateFiltered { table, .. } => Some(*table),
            _ => None,
        }
    }
}

// The kind of block that a line begins.
fn read_kind(alloc: Global, number: u32, line: &str) -> Result<Block, ScriptFault>
    ensures { Gives (λ kind. kind) result (at_line number (block_of fields_read line.now)) }
{
    let (_, arguments) = word_and_arguments(line);
    let (word, own) = word_and_arguments(arguments);
    kind_of(alloc, number, word, own)
}

#[tactic(auto, unfolding(crate::specs::Blocks::block_of_word))]
// The kind of block of a word and its own arguments.
fn kind_of(alloc: Global, number: u32, word: &str, own: &str) -> Result<Block, ScriptFault>
    ensures { Gives (λ kind. kind) result
        (at_line number (block_of_word fields_read word.now own.now)) }
{
    if word == "update-filtered" {
        filtered(alloc, number, own)
    } else {
        plain(alloc, number, plain_block(word), own)
    }
}

// The block whose word takes no arguments.
fn plain_block(word: &str) -> Option<Block>
    ensures { result ≡ plain_block word.now }
{
    match word {
        "add-all" => Some(Block::AddAll),
        "add-ex" => Some(Block::AddEx),
        "remove-all" => Some(Block::RemoveAll),
        "update" => Some(Block::Update),
        _ => None,
    }
}

// Such a block, where it stands alone.
fn plain(alloc: Global, number: u32, kind: Option<Block>, own: &str) -> Result<Block, ScriptFault>
    ensures { Gives (λ kind. kind) result (at_line number (of_plain fields_read kind own.now)) }
{
    let Some(kind) = kind else {
        return Err(LineCause::Word.at(number));
    };
    alone(alloc, number, own)?;
    Ok(kind)
}

// The kind of block that these fields filter.
fn filtered(alloc: Global, number: u32, own: &str) -> Result<Block, ScriptFault>
    ensures { Gives (λ kind. kind) result (at_line number (filtered fields_read own.now)) }
{
    let fields = fields_at(alloc, number, own)?;
    match filter_of(fields) {
        Ok((table, at, values)) => Ok(Block::UpdateFiltered { table, at, values }),
        Err(cause) => Err(cause.at(number)),
    }
}

// The rules of the lines of a text up to one that ends a block, and the table behind them. The first
// line has this number.
fn read_rules(
    alloc: Global,
    table: Option<TableId>,
    text: &str,
    number: u64,
) -> Result<(Option<TableId>, Vec<Rule>), ScriptFault>
    requires { number + length text.now < 2 ^ 64 }
    ensures { Gives (λ found. (found.0, found.1.items)) result
        (rules_of fields_read table (before_end (full_lines number text.now))) }
{
    let mut table = table;
    let mut rules = Vec::new(alloc);
    let mut rest = text;
    let mut first = number;
    while let Some((at, line, after)) = next_full_line(rest, first) {
        if ends_block(line) {
            return Ok((table, rules));
        }
        let (own, rule) = inner_rule(alloc, given_number(at), table, line)?;
        rules.push(rule).map_err(NoMemory::from)?;
        table = Some(own);
        first = at + 1;
        rest = after;
    }
    Ok((table, rules))
}

// The rule of a line in a block of this table. The line has this number.
fn inner_rule(
    alloc: Global,
    number: u32,
    table: Option<TableId>,
    line: &str,
) -> Result<(TableId, Rule), ScriptFault>
    ensures { Gives (λ found. found) result
        (at_line number (inner_rule fields_read table line.now)) }
{
    let fields = fields_at(alloc, number, line)?;
    match rule_in(table, fields) {
        Ok(found) => Ok(found),
        Err(cause) => Err(cause.at(number)),
    }
}

// The rule of these fields in a block of this table.
fn rule_in(table: Option<TableId>, fields: Vec<Text>) -> Result<(TableId, Rule), LineCause>
    requires rule { AreFields fields.items }
    requires some { 0 < length fields.items }
    ensures { result ≡ rule_in table fields.items }
{
    let (own, rule) = rule_of(fields)?;
    match table {
        Some(table) if !is_same(table, own) => Err(LineCause::Mixed),
        _ => Ok((own, rule)),
    }
}

fn is_same(one: TableId, other: TableId) -> bool
    ensures { result ≡ same_table one other }
{
    one == other
}

// The call of a block with these rules. Its end has this number.
fn call_of(
    alloc: Global,
    number: u32,
    kind: Block,
    table: Option<TableId>,
    rules: Vec<Rule>,
) -> Result<Call, ScriptFault>
    ensures { Gives (λ call. call) result
        (at_line number (ok_or (call_of kind (table, rules.items)) LineCause.Unpaired)) }
{
    if rules.len() > MOST_RULES {
        return Err(ScriptFault::NoMemory);
    }
    let table = table.unwrap_or(TableId::P);
    match kind {
        Block::AddAll => Ok(Call::AddAll {
            table,
            rules: Rules::from_vec(rules),
        }),
        Block::AddEx => Ok(Call::AddEx {
            table,
            rules: Rules::from_vec(rules),
        }),
        Block::RemoveAll => Ok(Call::RemoveAll {
            table,
            rules: Rules::from_vec(rules),
        }),
        Block::Update => match pairs_of(alloc, rules)? {
            Some(pairs) => Ok(Call::Update { table, pairs }),
            None => Err(LineCause::Unpaired.at(number)),
        },
        Block::UpdateFiltered { table, at, values } => Ok(Call::UpdateFiltered {
            table,
            at,
            values,
            rules: Rules::from_vec(rules),
        }),
    }
}

// Old and new rules by turns, unless the last has no new one.
fn pairs_of(alloc: Global, rules: Vec<Rule>) -> Result<Option<Pairs>, NoMemory>
    requires { vec_len rules < 2 ^ 32 }
    ensures { IfOk result (λ pairs. pairs_of rules.items ≡ pairs) }
{
    let mut pairs = Vec::new(alloc);
    let mut rules = rules.into_iter();
    while let Some(old) = rules.next() {
        let Some(new) = rules.next() else {
            return Ok(None);
        };
        pairs.push((old, new))?;
    }
    Ok(Some(Pairs::from_vec(pairs)))
}
