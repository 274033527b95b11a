//! The reader of what an administrator writes: requests, edits, batches, publishes and queries, one
//! item a line.
#![tactic(auto)]

mod arguments;
mod block;
mod fault;
mod fields;
mod item;
mod laws;
mod line_item;
mod lines;
mod reader;
mod requests;
mod said_lines;
mod script;
mod walk;
mod word;

pub use fault::{LineCause, ScriptFault};
pub use item::{Item, RequestLine, RequestText};
pub use laws::{
    every_input_is_requests_or_at_fault, every_text_is_a_script_or_at_fault,
    faulty_text_is_no_script, input_says_one_list_of_requests, items_are_named,
    text_has_one_script_fault, text_says_one_script, texts_are_read_in_one_way,
};
pub use reader::read_script;
pub use requests::{
    next_request, read_asked, read_line_over, read_request, read_request_over, read_text, values_of,
};
pub use said_lines::{AskedLine, BuiltItem, FirstItem, ItemLines, item_lines};
pub use script::Script;
pub use walk::check_script;
pub use word::{begins_block, ends_block};
