// Cells as unsigned numbers: sums, differences and products modulo 2^32, quotients, remainders, comparisons.
#![tactic(auto)]

ghost use Rattle.std.specs.Prelude.{◌≡◌};
ghost use Rattle.word.specs.Said.{said};
ghost use Rattle.word.specs.Word.{add_u, sub_u, mul_u, quot_u, rem_u, lt_u, le_u};

use word::ArithmeticError;

#[tactic(auto, unfolding(word::specs::Word::add_u))]
pub fn add_u(x: u32, y: u32) -> u32
    ensures { result ≡ add_u 32 x y }
{
    x.wrapping_add(y)
}

#[tactic(auto, unfolding(word::specs::Word::sub_u))]
pub fn sub_u(x: u32, y: u32) -> u32
    ensures { result ≡ sub_u 32 x y }
{
    x.wrapping_sub(y)
}

// The product modulo 2^32. A u64 holds any product of two cells. The library's own `wrapping_mul` would do, but the requirements ask for a
// helper of the program's own here.
#[tactic(auto, unfolding(word::specs::Word::mul_u))]
fn wrapping_mul(x: u32, y: u32) -> u32
    ensures { result ≡ mul_u 32 x y }
{
    (u64::from(x) * u64::from(y) % 0x1_0000_0000) as u32
}

pub fn mul_u(x: u32, y: u32) -> u32
    ensures { result ≡ mul_u 32 x y }
{
    wrapping_mul(x, y)
}

#[tactic(auto, unfolding(word::specs::Said::said, word::specs::Word::quot_u))]
pub fn quot_u(x: u32, y: u32) -> Result<u32, ArithmeticError>
    ensures { said result ≡ quot_u x y }
{
    if y == 0 {
        return Err(ArithmeticError::ZeroDivisor);
    }
    Ok(x / y)
}

#[tactic(auto, unfolding(word::specs::Said::said, word::specs::Word::rem_u))]
pub fn rem_u(x: u32, y: u32) -> Result<u32, ArithmeticError>
    ensures { said result ≡ rem_u x y }
{
    if y == 0 {
        return Err(ArithmeticError::ZeroDivisor);
    }
    Ok(x % y)
}

#[tactic(auto, unfolding(word::specs::Word::lt_u))]
pub fn lt_u(x: u32, y: u32) -> u32
    ensures { result ≡ lt_u x y }
{
    u32::from(x < y)
}

#[tactic(auto, unfolding(word::specs::Word::le_u))]
pub fn le_u(x: u32, y: u32) -> u32
    ensures { result ≡ le_u x y }
{
    u32::from(x <= y)
}
