// Cells as bits: and, or, not; whether two are the same, and whether one is 0.
#![tactic(auto)]

ghost use Rattle.std.specs.Prelude.{◌≡◌};
ghost use Rattle.word.specs.Word.{and_b, or_b, not_b, equal, differ, is_zero};

#[tactic(auto, using(crate::proofs::Bits::and_is))]
pub fn and_b(x: u32, y: u32) -> u32
    ensures { result ≡ and_b 32 x y }
{
    x & y
}

#[tactic(auto, using(crate::proofs::Bits::or_is))]
pub fn or_b(x: u32, y: u32) -> u32
    ensures { result ≡ or_b 32 x y }
{
    x | y
}

#[tactic(auto, unfolding(word::specs::Word::not_b))]
pub fn not_b(x: u32) -> u32
    ensures { result ≡ not_b 32 x }
{
    !x
}

#[tactic(auto, unfolding(word::specs::Word::equal))]
pub fn equal(x: u32, y: u32) -> u32
    ensures { result ≡ equal x y }
{
    u32::from(x == y)
}

#[tactic(auto, unfolding(word::specs::Word::differ))]
pub fn differ(x: u32, y: u32) -> u32
    ensures { result ≡ differ x y }
{
    u32::from(x != y)
}

#[tactic(auto, unfolding(word::specs::Word::is_zero))]
pub fn is_zero(x: u32) -> u32
    ensures { result ≡ is_zero x }
{
    u32::from(x == 0)
}
