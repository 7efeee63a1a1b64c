// Runs of steps, and power up.
#![tactic(auto)]

pub mod run;
