// What the program prints for a job, and of its code the first line of a text and which numbers are refusals.
#![tactic(auto)]

ghost use Rattle.std.specs.Prelude.{◌≡◌, ◌==◌, option_map, position};
ghost use Rattle.laws.specs.Choice.{between};
ghost use Rattle.program.specs.JobLines.{line_length, split_line};

// Where the first 0a stands.
fn line_end(text: &[u8]) -> Option<usize>
    ensures { result ≡ position (λ b. b == 0x0a) text.now }
{
    text.iter().position(|&b| b == b'\n')
}

// The bytes before it.
pub fn line_length(text: &[u8]) -> usize
    ensures { result ≡ line_length text.now }
{
    line_end(text).unwrap_or(text.len())
}

// The first line, without its 0a, and what follows it; none where no 0a ends it.
pub fn split_line(text: &[u8]) -> Option<(&[u8], &[u8])>
    ensures { option_map (λ p. (p.0.now, p.1.now)) result ≡ split_line text.now }
{
    let (line, ended) = text.split_at(line_length(text));
    let (_, rest) = ended.split_first()?;
    Some((line, rest))
}

// "A refusal (1 to 9)". A number and no enum: it is asked of the answer as C callers get it.
pub fn is_refusal(number: u32) -> bool
    ensures { result ≡ between 1 number 9 }
{
    (1..=9).contains(&number)
}
