// What the program's files and its line mean.
#![tactic(auto)]

pub mod line;
pub mod pins;
