// What a question is: its fields, their slots and tests, the variables that they name, and the checks on them.
// Refused here: shapes and slots (18, 19, 8, 9, 10, 28); told for whoever reads a question: what doesn't fit its holder (16), and the tests whose
// annotation variable stands in a TRIPLE outside (22).
#![tactic(auto)]

mod fields;
mod outside;
mod slots;

pub use fields::{BOTH, EITHER, FieldIn, ONLY, TEST_FIELD, TRIPLE, field_at};
pub use outside::stray_in;
pub use slots::{
    ANNOTATION_VARIABLES, TERM_VARIABLES, test_refusal, test_vars, triple_refusal, triple_vars,
};
