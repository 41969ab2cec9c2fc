// Numbers as lower-case hexadecimal digits, the high digit first: what images, job lines and answers are written in.
#![tactic(auto)]

ghost use Rattle.std.specs.Prelude.{◌≡◌, ◌<◌, ◌+◌, ◌≤◌, length, MatchOption};
ghost use Rattle.std.proofs.lemmas.List.Edits.{sets};
ghost use Rattle.hexadecimal.specs.Hex.{digit_value, digit_of, hex, number_at, written};

// What a byte stands for as a digit.
#[tactic(auto, unfolding(crate::specs::Hex::digit_value))]
fn digit(b: u8) -> Option<u8>
    ensures { MatchOption result (digit_value b ≡ 16) (λ v. (v ≡ digit_value b) × (v < 16)) }
{
    match b {
        b'0'..=b'9' => Some(b - b'0'),
        b'a'..=b'f' => Some(b - b'a' + 10),
        _ => None,
    }
}

// The number that digits give, sixteen at the most.
fn number_of(digits: &[u8]) -> Option<u64>
    requires { length digits.now ≤ 16 }
    ensures { result ≡ number_at digits.now 0 (length digits.now) }
{
    let mut x: u64 = 0;
    for &b in digits {
        let v = digit(b)?;
        x = x * 16 + u64::from(v);
    }
    Some(x)
}

// The number that n digits from byte at on give, sixteen digits at the most.
pub fn number_at(bytes: &[u8], at: usize, n: usize) -> Option<u64>
    ensures { result ≡ number_at bytes.now at n }
{
    if 16 < n {
        return None;
    }
    let end = at.checked_add(n)?;
    number_of(bytes.get(at..end)?)
}

// The digit of a value below 16.
#[tactic(auto, unfolding(crate::specs::Hex::digit_of))]
fn spell(v: u8) -> u8
    requires { v < 16 }
    ensures { result ≡ digit_of v }
{
    if v < 10 { b'0' + v } else { b'a' - 10 + v }
}

// Writes the low n digits of x from byte at on, the last one first.
#[tactic(auto, using(crate::specs::Laws::hex_turn))]
fn spell_at(x: u64, n: usize, bytes: &mut [u8], at: usize)
    requires { at + n ≤ length bytes.old }
    ensures { bytes.new ≡ sets bytes.old at (hex n x) }
{
    let mut left = x;
    for j in (0..n).rev() {
        bytes[at + j] = spell((left % 16) as u8);
        left /= 16;
    }
}

// Writes the low n digits of x from byte at on where there is room for them, and else nothing.
#[tactic(auto, unfolding(crate::specs::Hex::written))]
pub fn write_at(x: u64, n: usize, bytes: &mut [u8], at: usize)
    ensures { bytes.new ≡ written x n bytes.old at }
{
    if at <= bytes.len() && n <= bytes.len() - at {
        spell_at(x, n, bytes, at);
    }
}
