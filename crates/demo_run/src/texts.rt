ghost use Rattle.std.specs.Prelude.{◌≡◌, ◌++◌, IfOk, OnOk, codes, decimal, string_bytes};
ghost use Rattle.answer_lines.specs.LineText.{Appends};
ghost use Rattle.demo_run.specs.DemoTexts.{ask_line, change_lines, lines_below, permission_line, policy_text, remove_line, role_of, script_text, to_read, user_line};

use itoa::Buffer;
use outside::NoMemory;
use std::alloc::Global;

/// The model of the demonstration.
pub(crate) const MODEL: &str = "[request_definition]
r = sub, obj, act
[policy_definition]
p = sub, obj, act
[role_definition]
g = _, _
[policy_effect]
e = some(where (p.eft == allow))
[matchers]
m = g(r.sub, p.sub) && r.obj == p.obj && r.act == p.act
";

/// Its policy, with so many permissions and users.
pub(crate) fn policy_text(alloc: Global, count: u32) -> Result<String, NoMemory>
    ensures { IfOk result (λ text. string_bytes text ≡ policy_text count) }
{
    let mut text = String::new(alloc);
    push_permissions(&mut text, count)?;
    push_users(&mut text, count)?;
    Ok(text)
}

/// Its script.
pub(crate) fn script_text(alloc: Global, count: u32) -> Result<String, NoMemory>
    ensures { IfOk result (λ text. string_bytes text ≡ script_text count) }
{
    let mut text = String::new(alloc);
    push_asks(&mut text, count)?;
    text.push_str("sync\n")?;
    push_changes(&mut text, count)?;
    text.push_str("publish\nsync\n")?;
    push_asks(&mut text, count)?;
    Ok(text)
}

fn push_permissions(text: &mut String, count: u32) -> Result<(), NoMemory>
    ensures { OnOk result (Appends text.old text.new (lines_below permission_line count)) }
{
    for number in 0..count {
        push_permission(text, number)?;
    }
    Ok(())
}

fn push_users(text: &mut String, count: u32) -> Result<(), NoMemory>
    ensures { OnOk result (Appends text.old text.new (lines_below user_line count)) }
{
    for number in 0..count {
        push_user(text, number)?;
    }
    Ok(())
}

fn push_asks(text: &mut String, count: u32) -> Result<(), NoMemory>
    ensures { OnOk result (Appends text.old text.new (lines_below ask_line count)) }
{
    for number in 0..count {
        push_ask(text, number)?;
    }
    Ok(())
}

fn push_changes(text: &mut String, count: u32) -> Result<(), NoMemory>
    ensures { OnOk result (Appends text.old text.new (lines_below change_lines count)) }
{
    for number in 0..count {
        push_change(text, number)?;
    }
    Ok(())
}

fn push_permission(text: &mut String, number: u32) -> Result<(), NoMemory>
    ensures { OnOk result (Appends text.old text.new (permission_line number)) }
{
    text.push_str("p, ")?;
    push_role(text, number)?;
    push_to_read(text, number)
}

fn push_user(text: &mut String, number: u32) -> Result<(), NoMemory>
    ensures { OnOk result (Appends text.old text.new (user_line number)) }
{
    text.push_str("g, user")?;
    push_number(text, number)?;
    text.push_str(", ")?;
    push_role(text, number)?;
    text.push_str("\n")?;
    Ok(())
}

fn push_ask(text: &mut String, number: u32) -> Result<(), NoMemory>
    ensures { OnOk result (Appends text.old text.new (ask_line number)) }
{
    text.push_str("ask user")?;
    push_number(text, number)?;
    push_to_read(text, number)
}

fn push_remove(text: &mut String, number: u32) -> Result<(), NoMemory>
    ensures { OnOk result (Appends text.old text.new (remove_line number)) }
{
    text.push_str("remove p, ")?;
    push_role(text, number)?;
    push_to_read(text, number)
}

fn push_change(text: &mut String, number: u32) -> Result<(), NoMemory>
    ensures { OnOk result (Appends text.old text.new (change_lines number)) }
{
    if number % 30 == 0 {
        push_remove(text, number)?;
        text.push_str("publish\n")?;
        return Ok(());
    }
    if number % 3 == 0 {
        return push_remove(text, number);
    }
    if number % 3 == 1 {
        return push_ask(text, number);
    }
    Ok(())
}

fn push_role(text: &mut String, number: u32) -> Result<(), NoMemory>
    ensures { OnOk result (Appends text.old text.new (role_of number)) }
{
    text.push_str("role")?;
    push_number(text, number % 10)
}

fn push_to_read(text: &mut String, number: u32) -> Result<(), NoMemory>
    ensures { OnOk result (Appends text.old text.new (to_read number)) }
{
    text.push_str(", data")?;
    push_number(text, number)?;
    text.push_str(", read\n")?;
    Ok(())
}

fn push_number(text: &mut String, number: u32) -> Result<(), NoMemory>
    ensures { OnOk result (Appends text.old text.new (decimal number)) }
{
    text.push_str(Buffer::new().format(number))?;
    Ok(())
}
