ghost use Rattle.std.specs.Prelude.{◌≡◌, ◌++◌, ◌∷◌, ◌≤◌, [], IfErr, IfOk, OnOk, length, map};
ghost use Rattle.csv.specs.Writing.{default_writer, row_text};
ghost use Rattle.rbac_query.specs.Helps.Entries.{role_record};
ghost use Rattle.rbac_query.specs.Helps.Stops.{IsStop};

use crate::stop::ReportStop;
use csv::{Error, WriterBuilder};
use itoa::Buffer;
use outside::NoMemory;
use std::alloc::Global;

/// Appends the record of a role that a user has in a domain. Where the text gets too long, it stops.
pub(crate) fn push_role(
    alloc: Global,
    text: &mut Vec<u8>,
    user: &str,
    domain: &str,
    role: &str,
    links: u8,
    most: u64,
) -> Result<(), ReportStop>
    ensures took { OnOk result (text.new.items ≡ text.old.items ++ row_text default_writer
        (role_record user.now domain.now role.now links)) }
    ensures within { OnOk result (length text.new.items ≤ most) }
    ensures stop { IfErr result (IsStop most (text.old.items ++ row_text default_writer
        (role_record user.now domain.now role.now links))) }
{
    let mut digits = Buffer::new();
    push_record(alloc, text, user, domain, role, digits.format(links), most)
}

/// Appends a record of these fields. Where the text gets too long, it stops.
pub(crate) fn push_record<'a>(
    alloc: Global,
    text: &mut Vec<u8>,
    user: &'a str,
    domain: &'a str,
    role: &'a str,
    links: &'a str,
    most: u64,
) -> Result<(), ReportStop>
    ensures took { OnOk result (text.new.items ≡ text.old.items ++ row_text default_writer
        (user.now ∷ domain.now ∷ role.now ∷ links.now ∷ [])) }
    ensures within { OnOk result (length text.new.items ≤ most) }
    ensures stop { IfErr result (IsStop most (text.old.items ++ row_text default_writer
        (user.now ∷ domain.now ∷ role.now ∷ links.now ∷ []))) }
{
    push_row(
        alloc,
        text,
        &[
            user.as_bytes(),
            domain.as_bytes(),
            role.as_bytes(),
            links.as_bytes(),
        ],
    )?;
    if text.len() as u64 > most {
        return Err(ReportStop::TooLong);
    }
    Ok(())
}

// Appends a record.
fn push_row(alloc: Global, text: &mut Vec<u8>, fields: &[&[u8]]) -> Result<(), NoMemory>
    ensures { OnOk result (text.new.items ≡ text.old.items ++ row_text default_writer
        (map (λ field. field.now) fields.now)) }
{
    let Ok(row) = row_bytes(alloc, fields) else {
        return Err(NoMemory);
    };
    text.extend_from_slice(&row)?;
    Ok(())
}

// The bytes of a record. A writer over a `Vec` fails for want of memory alone.
fn row_bytes(alloc: Global, fields: &[&[u8]]) -> Result<Vec<u8>, Error>
    ensures { IfOk result (λ row. row.items ≡ row_text default_writer
        (map (λ field. field.now) fields.now)) }
{
    let mut writer = WriterBuilder::new().from_writer(Vec::new(alloc));
    writer.write_fields(fields)?;
    match writer.into_inner() {
        Ok(row) => Ok(row),
        Err(failed) => Err(failed.into_error()),
    }
}
