// Cases on the reader and the writer of design images, printed as those of `cases`.
#![tactic(auto)]

mod bytes;
mod largest;
mod text_case;
pub mod texts;
