use crate::case::Case;
use crate::instructions::ops_of;
use anyhow::{Result, bail};
use matcher_code::verify;
use std::alloc::Global;
use std::io::Write;
use std::str;

/// Checks the instructions of a case, and says how high their stack grows, or where they break a rule. They stand below each `code`,
/// a line each. Behind `columns` stand the columns of a request and of a policy, if these are not 3 and 3.
pub(crate) fn push_code(alloc: Global, report: &mut Vec<u8>, case: &Case) -> Result<()> {
    case.check_keys(&["columns"], &["code"])?;
    writeln!(report, "case {}", case.name)?;
    let numbers = case.numbers(alloc, "columns")?;
    let (columns, policy_columns) = match numbers.as_slice() {
        [] => (3, 3),
        [columns, policy_columns] => (*columns, *policy_columns),
        _ => bail!("there are two numbers of columns"),
    };
    for field in &case.fields {
        if field.key.as_str() == "code" {
            let answer = checked(alloc, &field.text, columns, policy_columns)?;
            writeln!(report, "  code {} => {answer}", field.rest.as_str())?;
        }
    }
    Ok(())
}

fn checked(alloc: Global, text: &[u8], columns: u32, policy_columns: u32) -> Result<String> {
    let ops = ops_of(alloc, str::from_utf8(text)?)?;
    match verify(ops, columns, policy_columns) {
        Ok(code) => Ok(format!(in alloc; "code, height {}", code.height())?),
        Err(unverified) => Ok(format!(in alloc; "unverified at {}", unverified.at)?),
    }
}
