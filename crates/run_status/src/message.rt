ghost use Rattle.std.specs.Prelude.{◌≡◌, ◌++◌, decimal};
ghost use Rattle.model_conf.specs.Faults.{key_text};
ghost use Rattle.run_status.specs.Messages.{at_place, limit_message, line_cause, matcher_message, message_of, model_message, packet_message, policy_message, quote_message, relation_name, script_message};
ghost use Rattle.run_status.specs.Helps.Pieces.{piece_text, text_of};

use crate::part::Part;
use crate::stop::Stop;
use log_ship::PacketFault;
use matcher_read::MatcherFault;
use model_conf::{Key, ModelFault};
use perm_base::TableId;
use policy_csv::PolicyFault;
use script_read::{LineCause, ScriptFault};

// Where a fault is, in front of its place.
const IN_MODEL: &str = "model: line ";

const IN_MATCHER: &str = "model: matcher at ";

const IN_POLICY: &str = "policy: line ";

const IN_SCRIPT: &str = "script: line ";

/// A text, and a number behind it or none.
#[derive(Clone, Copy)]
pub(crate) struct Piece {
    pub text: &'static str,
    pub number: Option<u64>,
}

/// What is told, in pieces, so that it takes no memory.
#[derive(Clone, Copy)]
pub(crate) struct Message {
    pub first: Piece,
    pub second: Piece,
    pub third: Piece,
}

/// What is told of a stop.
pub(crate) fn message_of(stop: Stop) -> Message
    ensures { text_of result ≡ message_of stop }
{
    match stop {
        Stop::Words => whole("usage: casbin_cli COMMAND [OPTION]... [WORD]..."),
        Stop::NoModel(fault) => model_message(fault),
        Stop::NoRelation { relation } => named("model: option names ", relation_name(relation)),
        Stop::NoPolicy(fault) => policy_message(fault),
        Stop::NoScript(fault) => script_message(fault),
        Stop::NoPackets(fault) => packet_message(fault),
        Stop::CannotRead(part) => named("cannot read: ", part.name()),
        Stop::CannotWrite => whole("cannot write"),
        Stop::TooLong(part) => limit_message(part),
        Stop::NoMemory => whole("no memory"),
    }
}

// Why a text is no model.
fn model_message(fault: ModelFault) -> Message
    ensures { text_of result ≡ model_message fault }
{
    match fault {
        ModelFault::TooLong => limit_message(Part::Model),
        ModelFault::NotUtf8 => whole("model: not UTF-8"),
        ModelFault::Line { line } => at_place(IN_MODEL, line, "not a line of a model"),
        ModelFault::UnknownSection { line } => at_place(IN_MODEL, line, "unknown section"),
        ModelFault::UnknownKey { line } => at_place(IN_MODEL, line, "unknown key"),
        ModelFault::RepeatedKey { line } => at_place(IN_MODEL, line, "repeated key"),
        ModelFault::Missing { key } => named("model: missing ", key_text(key)),
        ModelFault::Columns { key } => named("model: columns of ", key_text(key)),
        ModelFault::RoleShape { relation } => named("model: shape of ", relation_name(relation)),
        ModelFault::UnknownEffect => whole("model: unknown effect"),
        ModelFault::Matcher(fault) => matcher_message(fault),
        ModelFault::UnknownColumn { at } => at_place(IN_MATCHER, at, "unknown column"),
        ModelFault::RoleUse { at } => at_place(IN_MATCHER, at, "role use"),
        ModelFault::NoMemory => whole("no memory"),
    }
}

fn key_text(key: Key) -> &'static str
    ensures { result.now ≡ key_text key }
{
    match key {
        Key::R => "r",
        Key::P => "p",
        Key::E => "e",
        Key::M => "m",
    }
}

fn relation_name(relation: u8) -> &'static str
    ensures { result.now ≡ relation_name relation }
{
    match TableId::G(relation).name() {
        Some(name) => name,
        None => "",
    }
}

// Why the value of a model's matcher is none.
fn matcher_message(fault: MatcherFault) -> Message
    ensures { text_of result ≡ matcher_message fault }
{
    match fault {
        MatcherFault::TooLong => whole("model: matcher too long"),
        MatcherFault::Unexpected { at } => at_place(IN_MATCHER, at, "unexpected"),
        MatcherFault::OpenText { at } => at_place(IN_MATCHER, at, "open text"),
        MatcherFault::NumberTooWide { at } => at_place(IN_MATCHER, at, "number too wide"),
        MatcherFault::UnknownFunction { at } => at_place(IN_MATCHER, at, "unknown function"),
        MatcherFault::WrongArguments { at } => at_place(IN_MATCHER, at, "wrong arguments"),
        MatcherFault::TooDeep { at } => at_place(IN_MATCHER, at, "too deep"),
        MatcherFault::TooManyNodes => whole("model: matcher too large"),
        MatcherFault::NoMemory => whole("no memory"),
    }
}

// Why a text is no policy.
fn policy_message(fault: PolicyFault) -> Message
    ensures { text_of result ≡ policy_message fault }
{
    match fault {
        PolicyFault::NotUtf8 => whole("policy: not UTF-8"),
        PolicyFault::Quote { line, column } => quote_message(line, column),
        PolicyFault::UnknownTable { line } => at_place(IN_POLICY, line, "unknown table"),
        PolicyFault::Columns { line } => at_place(IN_POLICY, line, "columns"),
        PolicyFault::FieldTooLong { line } => at_place(IN_POLICY, line, "field too long"),
        PolicyFault::Full { line, .. } => at_place(IN_POLICY, line, "full"),
        PolicyFault::NoMemory => whole("no memory"),
    }
}

// Why a text is no script.
fn script_message(fault: ScriptFault) -> Message
    ensures { text_of result ≡ script_message fault }
{
    match fault {
        ScriptFault::NotUtf8 => whole("script: not UTF-8"),
        ScriptFault::Line { line, cause } => at_place(IN_SCRIPT, line, line_cause(cause)),
        ScriptFault::OpenBatch { line } => at_place(IN_SCRIPT, line, "open batch"),
        ScriptFault::NoMemory => whole("no memory"),
    }
}

// Why a text is no packets.
fn packet_message(fault: PacketFault) -> Message
    ensures { text_of result ≡ packet_message fault }
{
    match fault {
        PacketFault::NotUtf8 => whole("script: not UTF-8"),
        PacketFault::Line { line } => at_place(IN_SCRIPT, line, "packet"),
        PacketFault::NoMemory => whole("no memory"),
    }
}

fn line_cause(cause: LineCause) -> &'static str
    ensures { result.now ≡ line_cause cause }
{
    match cause {
        LineCause::Word => "word",
        LineCause::Quote => "quote",
        LineCause::Fields => "fields",
        LineCause::Table => "table",
        LineCause::Number => "number",
        LineCause::Mixed => "mixed",
        LineCause::Unpaired => "unpaired",
    }
}

fn quote_message(line: u32, column: u32) -> Message
    ensures { text_of result ≡ quote_message line column }
{
    Message {
        first: numbered("policy: line ", u64::from(line)),
        second: numbered(", column ", u64::from(column)),
        third: plain(": quote"),
    }
}

fn limit_message(part: Part) -> Message
    ensures { text_of result ≡ limit_message part }
{
    Message {
        first: plain("too long: "),
        second: plain(part.name()),
        third: numbered(", limit ", part.limit()),
    }
}

// What is wrong at a place that is counted from 1.
fn at_place(head: &'static str, place: u32, what: &'static str) -> Message
    ensures { text_of result ≡ at_place head.now place what.now }
{
    Message {
        first: numbered(head, u64::from(place)),
        second: plain(": "),
        third: plain(what),
    }
}

fn named(head: &'static str, name: &'static str) -> Message
    ensures { text_of result ≡ head.now ++ name.now }
{
    Message {
        first: plain(""),
        second: plain(head),
        third: plain(name),
    }
}

fn whole(text: &'static str) -> Message
    ensures { text_of result ≡ text.now }
{
    named("", text)
}

fn numbered(text: &'static str, number: u64) -> Piece
    ensures { piece_text result ≡ text.now ++ decimal number }
{
    Piece {
        text,
        number: Some(number),
    }
}

fn plain(text: &'static str) -> Piece
    ensures { piece_text result ≡ text.now }
{
    Piece { text, number: None }
}
