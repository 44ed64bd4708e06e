// The cases that the program vectors reads from standard input, and the line that it prints for each: the fields, the numbers of the line,
// and the checksums among them. A case is one byte, its operation, and its fields.
#![tactic(auto)]

pub mod checksums;
pub mod fields;
pub mod output;
