ghost use Rattle.std.specs.Prelude.{◌≡◌, ◌-◌, ◌≤◌, ◌++◌, ◌∷◌, [], IfErr, IfOk, Ok, OnOk};
ghost use Rattle.std.specs.Prelude.{drop, length, map, take};
ghost use Rattle.perm_value.specs.Datum.{text};
ghost use Rattle.perm_value.specs.Seen.{datum};
ghost use Rattle.enforce_core.specs.Asked.{CutStops, ReadsTexts};
ghost use Rattle.enforce_core.specs.Helps.Cut.{PieceStops};

use crate::stops::AskStop;
use outside::{NoMemory, Text};
use perm_value::{Request, RequestFault, Value};
use std::alloc::Global;

// The greatest number of texts of a request.
const MOST_TEXTS: usize = 34;

/// The request of the texts that lie one behind the other in these bytes and end at these places.
pub(crate) fn request_of_texts(
    alloc: Global,
    bytes: &[u8],
    ends: &[usize],
) -> Result<Request, AskStop>
    ensures found { IfOk result (λ request.
        ReadsTexts bytes.now ends.now (Ok (map datum request))) }
    ensures stopped { IfErr result (CutStops bytes.now ends.now) }
{
    if ends.len() > MOST_TEXTS {
        return Err(AskStop::Request(RequestFault::TooMany));
    }
    let values = values_of(alloc, bytes, ends)?;
    Ok(Request::from_vec(values))
}

// The texts as values.
fn values_of(alloc: Global, bytes: &[u8], ends: &[usize]) -> Result<Vec<Value>, AskStop>
    requires { length ends.now ≤ 34 }
    ensures found { IfOk result (λ values.
        ReadsTexts bytes.now ends.now (Ok (map datum values.items))) }
    ensures few { IfOk result (λ values. length values.items ≤ 34) }
    ensures stopped { IfErr result (CutStops bytes.now ends.now) }
{
    let mut values = Vec::new(alloc);
    let mut number: u32 = 0;
    let mut from = 0;
    let mut rest = ends;
    while let Some((place, behind)) = rest.split_first() {
        let place = *place;
        if place < from {
            return Err(AskStop::Ends);
        }
        if place > bytes.len() {
            return Err(AskStop::Ends);
        }
        number += 1;
        push_text(alloc, &mut values, piece(bytes, from, place), number)?;
        from = place;
        rest = behind;
    }
    Ok(values)
}

// Puts the text of this number behind the other values.
fn push_text(
    alloc: Global,
    values: &mut Vec<Value>,
    piece: &[u8],
    number: u32,
) -> Result<(), AskStop>
    ensures pushed { OnOk result (map datum values.new.items
        ≡ map datum values.old.items ++ text piece.now ∷ []) }
    ensures stopped { IfErr result (PieceStops piece.now number) }
{
    let Ok(content) = str::from_utf8(piece) else {
        return Err(AskStop::NotUtf8 { field: number });
    };
    let held = Text::from_str(alloc, content)?;
    push_value(values, held)?;
    Ok(())
}

// Puts a text behind the other values.
fn push_value(values: &mut Vec<Value>, held: Text) -> Result<(), NoMemory>
    ensures { OnOk result (map datum values.new.items
        ≡ map datum values.old.items ++ text held ∷ []) }
{
    values.push(Value::Text(held))?;
    Ok(())
}

// The bytes from one place to another.
fn piece(bytes: &[u8], from: usize, end: usize) -> &[u8]
    requires rising { from ≤ end }
    requires within { end ≤ length bytes.now }
    ensures { result.now ≡ take (end - from) (drop from bytes.now) }
{
    &bytes[from..end]
}
