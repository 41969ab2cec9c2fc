// Cases on the judge of design images. Each is printed with its answer: the number as two digits, then the line of a refusal or the count of
// an acceptance.
#![tactic(auto)]

pub mod case;
pub mod instructions;
pub mod tables;
