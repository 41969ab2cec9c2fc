// Cells as signed numbers, in two's complement: what a cell stands for and the way back, quotients and remainders with their stops,
// comparisons.
#![tactic(auto)]

ghost use Rattle.std.specs.Prelude.{◌≡◌, ◌≢◌, ℤ, true, IfOk, IfErr};
ghost use Rattle.std.specs.Int.Signed.{quot_z};
ghost use Rattle.word.specs.Said.{said, number_of};
ghost use Rattle.word.specs.Word.{stop, signed, bits_of, in_range, division_s, quot_s, rem_s, lt_s, le_s};

use word::ArithmeticError;

// The number that a cell stands for.
#[tactic(auto, using(word::proofs::Machine::read_is))]
fn as_signed(x: u32) -> i32
    ensures { result ≡ signed 32 x }
{
    x.cast_signed()
}

// The cell that stands for a number: the way back.
#[tactic(auto, using(word::proofs::Machine::bits_are))]
pub fn as_cell(s: i32) -> u32
    ensures { result ≡ bits_of 32 s }
{
    s.cast_unsigned()
}

// The number that a cell stands for, with room for a sum, a difference or a product of two.
pub fn wide(x: u32) -> i64
    ensures { result ≡ signed 32 x }
{
    i64::from(as_signed(x))
}

// Whether an i32 holds the quotient of two. It holds all but that of the lower end of the range by -1, one past the upper end.
#[tactic(auto, using(word::proofs::Signs::least, word::proofs::Signs::not_least))]
fn divides_in_range(a: i32, b: i32) -> bool
    ensures { result ≡ in_range 32 (quot_z a b) }
{
    a != i32::MIN || b != -1
}

// The numbers of two cells that can be divided, or what stops both the quotient and the remainder.
#[tactic(auto, using(crate::proofs::Quotients::zero_divisor, crate::proofs::Quotients::tested_in, crate::proofs::Quotients::out_of_range))]
fn operands(x: u32, y: u32) -> Result<(i32, i32), ArithmeticError>
    ensures read { IfOk result (λ p. (p.0 ≡ signed 32 x) × (p.1 ≡ signed 32 y)) }
    ensures nonzero { IfOk result (λ p. y ≢ 0) }
    ensures in_range { IfOk result (λ p. in_range 32 (quot_z (signed 32 x) (signed 32 y)) ≡ true) }
    ensures stops { IfErr result (λ e. (f : ℤ → ℤ → ℤ) → stop (number_of e) ≡ division_s f 32 x y) }
{
    if y == 0 {
        return Err(ArithmeticError::ZeroDivisor);
    }
    let a = as_signed(x);
    let b = as_signed(y);
    if divides_in_range(a, b) {
        return Ok((a, b));
    }
    Err(ArithmeticError::OutOfRange)
}

pub fn quot_s(x: u32, y: u32) -> Result<u32, ArithmeticError>
    ensures { said result ≡ quot_s 32 x y }
{
    let (a, b) = operands(x, y)?;
    Ok(as_cell(a / b))
}

pub fn rem_s(x: u32, y: u32) -> Result<u32, ArithmeticError>
    ensures { said result ≡ rem_s 32 x y }
{
    let (a, b) = operands(x, y)?;
    Ok(as_cell(a % b))
}

#[tactic(auto, using(crate::proofs::Quotients::less))]
pub fn lt_s(x: u32, y: u32) -> u32
    ensures { result ≡ lt_s 32 x y }
{
    u32::from(as_signed(x) < as_signed(y))
}

#[tactic(auto, using(crate::proofs::Quotients::at_most))]
pub fn le_s(x: u32, y: u32) -> u32
    ensures { result ≡ le_s 32 x y }
{
    u32::from(as_signed(x) <= as_signed(y))
}
