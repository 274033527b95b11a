//! The ground of the engine: rules, the shapes of tables, and the lines and fields of a text.
#![tactic(auto)]

mod fields;
mod line_ends;
mod line_field;
mod marks;
mod patterns;
mod quoted;
mod quoted_print;
mod role_shapes;
mod rule;
mod rules;
mod shapes;
mod table_names;

pub use fields::push_texts;
pub use line_field::LineField;
pub use patterns::is_pattern;
pub use quoted::{
    FieldFault, every_line_is_fields_or_at_fault, fault_of_a_line_is_unique,
    fields_of_a_line_are_unique, first_field, line_at_fault_is_no_fields, read_fields,
};
pub use quoted_print::{print_fields, printed_fields_are_read, push_fields, push_named};
pub use role_shapes::RoleShapes;
pub use rule::{Rule, RuleFault};
pub use rules::Rules;
pub use shapes::{Fit, RoleShape, Shapes, TableId};
pub use table_names::tables_and_names_agree;
