// What is nobody's subject: lists by index, what each gives, bits of a number, and their laws.
// It holds no function; what the kit has is not said again here.
#![tactic(auto)]
