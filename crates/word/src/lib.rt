// What the arithmetic of cells is, over any width (specs/Word.antt), and the rules that it keeps. `unsigned`, `signed` and `bits` have its
// operations on 32-bit cells.
#![tactic(auto)]

// Why an operation has no value for the cell and stops the run.
#[derive(Clone, Copy, Debug, PartialEq, Eq)]
pub enum ArithmeticError {
    ZeroDivisor,
    OutOfRange,
}
