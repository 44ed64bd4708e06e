// The cases of check plan and write plan, on numbers, on bytes and on entry structs: each reads its further fields, makes the call and
// prints what it answers.
#![tactic(auto)]

pub mod entries;
pub mod strategies;
