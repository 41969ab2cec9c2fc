// What a plain instruction comes to, in the code's words, and the parts of that decision that are arithmetic and jumps.
#![tactic(auto)]

ghost use Rattle.std.specs.Prelude.{◌≡◌};
ghost use Rattle.word.specs.Word.{narrow, add_s, sub_s, mul_s};
ghost use Rattle.word.specs.Said.{said};
ghost use Rattle.effect.specs.Parts.{put_of, jump_of};

use ending::Ending;
use word::ArithmeticError;

// What a plain instruction comes to, at whatever place it stands: a cell takes a value and the body goes on at the next place; the
// body just goes on there; it goes on elsewhere; the run stops; or the instruction is not plain.
#[derive(Clone, Copy)]
pub enum Eff {
    Put(usize, u32),
    Next,
    Go(usize),
    Stop(Ending),
    Leave,
}

// Cell d takes the value of an operation, or the run stops.
#[tactic(auto, unfolding(word::specs::Said::said))]
pub fn put(d: usize, r: Result<u32, ArithmeticError>) -> Eff
    ensures { result ≡ put_of d (said r) }
{
    match r {
        Ok(x) => Eff::Put(d, x),
        Err(e) => Eff::Stop(Ending::from(e)),
    }
}

// Cell d takes a signed result where the range has it. The result is tested here and not in `signed`, because an effect, unlike an
// answer of `signed`, is too large for the compiler to carry it through the test as one number.
#[tactic(auto, using(crate::proofs::Puts::cell_taken, crate::proofs::Puts::out_of_cells))]
fn put_signed(d: usize, s: i64) -> Eff
    ensures { result ≡ put_of d (narrow 32 s) }
{
    match i32::try_from(s) {
        Ok(s) => Eff::Put(d, signed::as_cell(s)),
        Err(_) => Eff::Stop(Ending::OutOfRange),
    }
}

// An i64 holds a sum, a difference and a product of two cells.
pub fn sum(d: usize, x: u32, y: u32) -> Eff
    ensures { result ≡ put_of d (add_s 32 x y) }
{
    put_signed(d, signed::wide(x) + signed::wide(y))
}

pub fn difference(d: usize, x: u32, y: u32) -> Eff
    ensures { result ≡ put_of d (sub_s 32 x y) }
{
    put_signed(d, signed::wide(x) - signed::wide(y))
}

pub fn product(d: usize, x: u32, y: u32) -> Eff
    ensures { result ≡ put_of d (mul_s 32 x y) }
{
    put_signed(d, signed::wide(x) * signed::wide(y))
}

// Goto where the cell is not 0.
pub fn jump(x: u32, to: usize) -> Eff
    ensures { result ≡ jump_of x to }
{
    if x == 0 {
        return Eff::Next;
    }
    Eff::Go(to)
}
