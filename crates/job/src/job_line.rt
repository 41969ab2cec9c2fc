// The lines of a job that stand before its image.
ghost use Rattle.std.specs.Prelude.{◌≡◌, refl, true, ltb, ℕ, ◌^◌, ◌<◌, length, Some, None, MatchOption};
ghost use Rattle.program.specs.JobLines.{after_line, budget_of, numbers_of};
ghost use Rattle.job.specs.Numbers.{Lists};

// A number on a job's line, where it stands in so many digits.
pub trait Number: Copy {
    const DIGITS: usize;

    ghost DIGITS: { ℕ };

    ghost value: { Self → ℕ };

    fn from_digits(x: u64) -> Self
        requires { x < 16 ^ DIGITS }
        ensures { value result ≡ x };

    ghost some: { ltb 0 DIGITS ≡ true };
}

// A choice.
impl Number for u8 {
    const DIGITS: usize = 2;

    ghost DIGITS = { 2 };

    ghost value = { λ x. x };

    ghost some = { refl };

    fn from_digits(x: u64) -> u8 {
        x as u8
    }
}

// An input.
impl Number for u32 {
    const DIGITS: usize = 8;

    ghost DIGITS = { 8 };

    ghost value = { λ x. x };

    ghost some = { refl };

    fn from_digits(x: u64) -> u32 {
        x as u32
    }
}

const BUDGET_DIGITS: usize = 8;

// The budget on the first line, and what follows it.
pub fn budget_of(text: &[u8]) -> Option<(u32, &[u8])>
    ensures { MatchOption result (budget_of text.now ≡ None) (λ p. (budget_of text.now ≡ Some p.0) × (p.1.now ≡ after_line text.now)) }
{
    let (line, rest) = program::split_line(text)?;
    if line.len() != BUDGET_DIGITS {
        return None;
    }
    let budget = hexadecimal::number_at(line, 0, BUDGET_DIGITS)?;
    Some((budget as u32, rest))
}

// How many numbers the first line has, which go to the room's start, no more than it holds; and what follows the line.
pub fn numbers_of<'a, T: Number>(text: &'a [u8], room: &mut [T]) -> Option<(usize, &'a [u8])>
    ensures { MatchOption result (numbers_of T.DIGITS (length room.old) text.now ≡ None) (Lists T.value T.DIGITS (length room.old) text.now room.new) }
{
    let (line, rest) = program::split_line(text)?;
    let digits = T::DIGITS;
    if line.len() % digits != 0 {
        return None;
    }
    let count = line.len() / digits;
    if room.len() < count {
        return None;
    }
    let places = &mut room[..count];
    for (i, place) in places.iter_mut().enumerate() {
        let x = hexadecimal::number_at(line, digits * i, digits)?;
        *place = T::from_digits(x);
    }
    Some((count, rest))
}
