// The text that the programs print, laid into lent bytes: each function answers where what it laid ends; and the bytes that they read.
// What a call of the system writes no contract can say; these say which bytes it is handed.
#![tactic(auto)]

pub mod asked;
pub mod closed;
pub mod input;
pub mod lines;
