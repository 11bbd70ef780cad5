// The text of a term of N-Triples: laid down from a line's bytes or compared with bytes where it stands, and which texts are legal.
// Nothing is refused here.
#![tactic(auto)]

pub mod legal;
pub mod texts;
