// The rules of annotated rho-df, and what the closure of a table is: definitions, and the theory over the laws of annotations alone.
// It holds no function; `closing` closes a table.
#![tactic(auto)]
