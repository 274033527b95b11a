ghost use Rattle.std.specs.Prelude.{◌≡◌, ◌<◌, ◌≤◌, ◌⊎◌, ℕ, List, ◌∷◌, IfNone, IfOk, IfSome, IsErrOf, MatchOption, MatchResult, false, length, option_map, true};
ghost use Rattle.perm_base.specs.FieldFaults.{HasTooMany, IsBadAt, IsFault, IsQuoteFault};
ghost use Rattle.perm_base.specs.FieldLine.{IsFields};
ghost use Rattle.perm_base.specs.LineEnds.{AreFields, has_line_end};
ghost use Rattle.perm_base.specs.FieldSteps.{Gives, before_comma, behind_comma, column_of, closed_field, fields_of, first_field, line_end_column, plain_field, quoted_field, quoted_text, seen};

use crate::line_ends::{first_line_end, has_line_end, plain_end};
use crate::line_field::LineField;
use outside::{NoMemory, Text};
use std::alloc::Global;
use text_parts::{before_blanks, behind, behind_blanks, cut_at};

// The greatest number of fields of a line.
const MOST_FIELDS: usize = 34;

// The greatest column that is given.
const LAST_COLUMN: usize = 4_294_967_295;

/// Why a line is not read as fields.
#[derive(Clone, Copy, Debug, PartialEq, Eq)]
pub enum FieldFault {
    /// At this column, counted in bytes from 1, stands a quote that is never closed, a byte behind a closing quote
    /// that is neither a blank nor a comma, or a CR or LF.
    Quote { column: u32 },
    /// The line has more than 34 fields.
    TooMany,
    /// Memory ran out.
    NoMemory,
}

impl From<NoMemory> for FieldFault {
    ghost use Rattle.perm_base.specs.declared.quoted.FieldFault.TheVariants.{NoMemory};

    ghost from_gives = { λ _ fault. fault ≡ NoMemory };

    fn from(_: NoMemory) -> FieldFault {
        FieldFault::NoMemory
    }
}

/// Reads the fields of a line, which are joined by commas. Spaces and tabs round a field are dropped; a field in
/// double quotes keeps its blanks and commas, and a doubled quote in it is one. An empty line is one empty field.
/// Of several faults the first from the left is given.
pub fn read_fields(alloc: Global, line: &str) -> Result<Vec<Text>, FieldFault>
    ensures found { IfOk result (λ fields. IsFields line.now fields.items) }
    ensures only { (fields : List (List ℕ)) → IsFields line.now fields
        → MatchResult result (λ found. found.items ≡ fields)
        (λ fault. fault ≡ FieldFault.NoMemory) }

    ensures quote { (column : ℕ) → IsErrOf result (FieldFault.Quote column)
        → IsQuoteFault line.now column }
    ensures too_many { IsErrOf result FieldFault.TooMany → HasTooMany line.now }

    ensures rule { IfOk result (λ fields. AreFields fields.items) }
    ensures some { IfOk result (λ fields. 0 < length fields.items) }
    ensures few { IfOk result (λ fields. length fields.items ≤ 34) }
{
    fields_of(alloc, line)
}

/// The law that a line is fields in at most one way.
pub fn fields_of_a_line_are_unique()
    ensures { (line : List ℕ) (first second : List (List ℕ))
        → IsFields line first → IsFields line second → first ≡ second }
{}

/// The law that a line has at most one fault, and is bad at one byte at most.
pub fn fault_of_a_line_is_unique()
    ensures fault { (line : List ℕ) (first second : FieldFault)
        → IsFault line first → IsFault line second → first ≡ second }
    ensures place { (line : List ℕ) (first second : ℕ)
        → IsBadAt line first → IsBadAt line second → first ≡ second }
{}

/// The law that a line with a fault is no fields.
pub fn line_at_fault_is_no_fields()
    ensures { (line : List ℕ) (fault : FieldFault) (fields : List (List ℕ)) → IsFault line fault
        → ¬ (IsFields line fields) }
{}

/// The law that every line is fields or has a fault.
pub fn every_line_is_fields_or_at_fault()
    ensures { (line : List ℕ) → ((fields : List (List ℕ)) × IsFields line fields)
        ⊎ ((fault : FieldFault) × IsFault line fault) }
{}

// The fields of a line, or its first fault.
fn fields_of(alloc: Global, line: &str) -> Result<Vec<Text>, FieldFault>
    ensures exact { Gives (λ fields. fields.items) result (fields_of line.now) }
{
    let mut fields = Vec::new(alloc);
    let mut rest = line;
    for at in 0..MOST_FIELDS {
        let (field, behind) = first_field(alloc, line.len(), rest)?;
        let text = field.into_text(alloc)?;
        fields.push(text).map_err(NoMemory::from)?;
        let Some(next) = behind else {
            return Ok(fields);
        };
        rest = next;
    }
    Err(FieldFault::TooMany)
}

/// The field at the front of the last bytes of a line of this size, and what stands behind its comma: what `read_fields` reads
/// 34 times at most, for a caller that wants no list of the fields. It takes memory for a long field in quotes alone.
#[inline(always)]
pub fn first_field(
    alloc: Global,
    size: usize,
    rest: &str,
) -> Result<(LineField<'_>, Option<&str>), FieldFault>
    ensures { Gives seen result (first_field size rest.now) }
{
    let field = behind_blanks(rest);
    match behind(field, b'"') {
        Some(inside) => quoted_field(alloc, size, inside),
        None => plain_field(size, field),
    }
}

// A field that does not begin with a quote.
#[inline(always)]
fn plain_field(size: usize, field: &str) -> Result<(LineField<'_>, Option<&str>), FieldFault>
    ensures { Gives seen result (plain_field size field.now) }
{
    let Some((text, behind)) = clean_parts(field) else {
        let column = line_end_column(size, field);
        return Err(FieldFault::Quote { column });
    };
    Ok((LineField::part(before_blanks(text)), behind))
}

// A field that begins with a quote, behind that quote. Few do, and their code stays out of the loop over the others.
#[inline(never)]
fn quoted_field(
    alloc: Global,
    size: usize,
    inside: &str,
) -> Result<(LineField<'_>, Option<&str>), FieldFault>
    ensures { Gives seen result (quoted_field size inside.now) }
{
    let Some((text, after)) = quoted_text(alloc, inside)? else {
        let column = column_of(size, inside.len() + 1);
        return Err(FieldFault::Quote { column });
    };
    if has_line_end(text.as_str()) {
        let column = line_end_column(size, inside);
        return Err(FieldFault::Quote { column });
    }
    closed_field(size, LineField::own(text), behind_blanks(after))
}

// A field behind whose closing quote, and the blanks there, this stands.
fn closed_field<'a>(
    size: usize,
    field: LineField<'a>,
    after: &'a str,
) -> Result<(LineField<'a>, Option<&'a str>), FieldFault>
    ensures { Gives seen result (closed_field size field.entry after.now) }
{
    if after.is_empty() {
        return Ok((field, None));
    }
    match behind(after, b',') {
        Some(rest) => Ok((field, Some(rest))),
        None => Err(FieldFault::Quote {
            column: column_of(size, after.len()),
        }),
    }
}

// Behind an opening quote: the text up to the next quote that is not doubled, and what stands behind that quote.
fn quoted_text(alloc: Global, inside: &str) -> Result<Option<(Text, &str)>, NoMemory>
    ensures { IfOk result
        (λ found. option_map (λ cut. (cut.0, cut.1.now)) found ≡ quoted_text inside.now) }
{
    let mut text = String::new(alloc);
    let mut rest = inside;
    while let Some((before, after)) = cut_at(rest, b'"') {
        text.push_str(before)?;
        let Some(next) = behind(after, b'"') else {
            return Ok(Some((Text::from_string(text), after)));
        };
        text.push_str("\"")?;
        rest = next;
    }
    Ok(None)
}

// What stands before the first comma, or all, and what stands behind that comma; none where CR or LF stands before it.
#[inline(always)]
fn clean_parts(text: &str) -> Option<(&str, Option<&str>)>
    ensures none { IfNone result (has_line_end (before_comma text.now) ≡ true) }
    ensures clean { IfSome result (λ parts. has_line_end parts.0.now ≡ false) }
    ensures before { IfSome result (λ parts. parts.0.now ≡ before_comma text.now) }
    ensures behind { IfSome result
        (λ parts. option_map (λ behind. behind.now) parts.1 ≡ behind_comma text.now) }
{
    let Some(at) = plain_end(text) else {
        return Some((text, None));
    };
    if text.as_bytes()[at] != b',' {
        return None;
    }
    Some((&text[..at], Some(&text[at + 1..])))
}

// The column of the first CR or LF of the last bytes of a line of this size.
fn line_end_column(size: usize, bytes: &str) -> u32
    ensures { result ≡ line_end_column size bytes.now }
{
    match first_line_end(bytes) {
        Some(at) => column_of(size, bytes.len().saturating_sub(at)),
        None => column_of(size, 0),
    }
}

#[tactic(auto, unfolding(crate::specs::FieldSteps::column_of))]
// The column, from 1, of the byte with which the last so many bytes of a line of this size begin.
fn column_of(size: usize, left: usize) -> u32
    ensures { result ≡ column_of size left }
{
    let column = size.saturating_sub(left).saturating_add(1);
    if column > LAST_COLUMN {
        u32::MAX
    } else {
        column as u32
    }
}
