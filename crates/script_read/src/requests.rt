ghost use Rattle.std.specs.Prelude.{◌≡◌, ◌≢◌, ◌<◌, ◌∷◌, [], Ok, Err, IfErr, IfNone, IfOk, IfSome, length, map, true};
ghost use Rattle.perm_value.specs.Seen.{datum};
ghost use Rattle.perm_value.specs.declared.request.RequestFault.TheVariants as fault;
ghost use Rattle.script_read.specs.Readings.{request_read};
ghost use Rattle.script_read.specs.Lines.{requests_of};
ghost use Rattle.script_read.specs.Reads.{Says};
ghost use Rattle.script_read.specs.Named.{is_named};
ghost use Rattle.script_read.specs.Said.{asks, reading, reading_of};

use crate::item::{RequestLine, RequestText};
use crate::said_lines::AskedLine;
use outside::{LineText, NoMemory};
use perm_value::{Request, RequestFault, Value, request_of_json, request_over_fields};
use std::alloc::Global;
use text_parts::{is_passed, next_text_line};

/// The first request of a text, and what stands behind it. It takes no memory.
pub fn next_request(text: &str) -> Option<(&str, &str)>
    ensures none { IfNone result (requests_of text.now ≡ []) }
    ensures first { IfSome result
        (λ cut. requests_of text.now ≡ cut.0.now ∷ requests_of cut.1.now) }
    ensures shorter { IfSome result (λ cut. length cut.1.now < length text.now) }
{
    let mut rest = text;
    while let Some((line, after)) = next_text_line(rest) {
        if !is_passed(line) {
            return Some((line, after));
        }
        rest = after;
    }
    None
}

/// Reads the line of a request, as JSON or as fields.
pub fn read_request(alloc: Global, json: bool, line: &str) -> Result<Request, RequestFault>
    ensures found { IfOk result (λ request. Says json line.now (Ok (map datum request))) }
    ensures fault { IfErr result (λ e. e ≢ fault.NoMemory → Says json line.now (Err e)) }
{
    read_request_over(alloc, Vec::new(alloc), json, line)
}

/// Reads the line of a request whose values take the place of others, where they are fields.
pub fn read_request_over(
    alloc: Global,
    others: Vec<Value>,
    json: bool,
    line: &str,
) -> Result<Request, RequestFault>
    ensures found { IfOk result (λ request. Says json line.now (Ok (map datum request))) }
    ensures fault { IfErr result (λ e. e ≢ fault.NoMemory → Says json line.now (Err e)) }
{
    if json {
        request_of_json(alloc, line)
    } else {
        request_over_fields(alloc, others, line)
    }
}

/// The request of a line as it stands in a script, which is not read yet.
pub(crate) fn ask(alloc: Global, json: bool, line: &str) -> Result<RequestText, NoMemory>
    ensures { IfOk result (λ text. request_read json line.now ≡ reading_of text) }
{
    let line = LineText::from_str(alloc, line)?;
    Ok(RequestText { json, line })
}

/// Reads the request of a script, whose values take the place of others; where it is none, the answer says why. It takes no
/// memory where there were as many values, which are short texts.
pub fn read_text(
    alloc: Global,
    others: Vec<Value>,
    text: &RequestText,
) -> Result<RequestLine, NoMemory>
    ensures read { IfOk result (λ asked. reading asked ≡ reading_of text.now) }
    ensures named { IfOk result (λ asked. is_named (asks (reading asked)) ≡ true) }
{
    read_line_over(alloc, others, text.json, text.line.as_str())
}

/// Reads the request of a line of a script, as `read_text` says it.
pub fn read_asked(
    alloc: Global,
    others: Vec<Value>,
    asked: AskedLine<'_>,
) -> Result<RequestLine, NoMemory>
    ensures read { IfOk result (λ line. reading line
        ≡ request_read asked.entry.json asked.entry.line.now) }
    ensures named { IfOk result (λ line. is_named (asks (reading line)) ≡ true) }
{
    read_line_over(alloc, others, asked.json, asked.line)
}

/// What the line of a request asks, or why it is none. Its values take the place of others, where they are fields.
pub fn read_line_over(
    alloc: Global,
    others: Vec<Value>,
    json: bool,
    line: &str,
) -> Result<RequestLine, NoMemory>
    ensures says { IfOk result (λ asked. Says json line.now (reading asked)) }
    ensures named { IfOk result (λ asked. is_named (asks (reading asked)) ≡ true) }
{
    match read_request_over(alloc, others, json, line) {
        Ok(request) => Ok(RequestLine::Request(request)),
        Err(RequestFault::NoMemory) => Err(NoMemory),
        Err(fault) => Ok(RequestLine::Refused(fault)),
    }
}

/// The values of a request, for another one to take their place: none where there is no request.
pub fn values_of(alloc: Global, asked: RequestLine) -> Vec<Value> {
    match asked {
        RequestLine::Request(request) => request.into_vec(),
        RequestLine::Refused(_) => Vec::new(alloc),
    }
}
