// A line of N-Triples (RDF 1.1 N-Triples, section 7), taken apart: what it says, and where its three terms stand.
// What the grammar does not have is said to be Bad; nothing is refused here.
#![tactic(auto)]

pub mod classes;
pub mod escapes;
pub mod lexing;
pub mod lines;
pub mod runs;
