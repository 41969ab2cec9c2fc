// A set of numbers below 32, in one u32: i is in it where bit i is 1.
#![tactic(auto)]

ghost use Rattle.std.specs.Prelude.{◌≡◌};
ghost use Rattle.std.specs.Iterator.{at_most};
ghost use Rattle.sets.specs.Sets.{has, single, join, minus, with, without, below, least_of};

#[tactic(auto, using(crate::specs::Laws::has_past, crate::proofs::Shifts::tested))]
pub fn has(s: u32, i: usize) -> bool
    ensures { result ≡ has s i }
{
    i < 32 && s >> (i as u32) & 1 == 1
}

// The set of i alone, empty from 32 on: no shift by the whole width.
#[tactic(auto, using(crate::proofs::Shifts::single_in, crate::proofs::Shifts::single_past))]
fn single(i: usize) -> u32
    ensures { result ≡ single i }
{
    if 32 <= i {
        return 0;
    }
    1u32 << (i as u32)
}

#[tactic(auto, unfolding(crate::specs::Sets::join))]
pub fn join(a: u32, b: u32) -> u32
    ensures { result ≡ join a b }
{
    a | b
}

#[tactic(auto, unfolding(crate::specs::Sets::minus))]
pub fn minus(a: u32, b: u32) -> u32
    ensures { result ≡ minus a b }
{
    a & !b
}

#[tactic(auto, unfolding(crate::specs::Sets::with))]
pub fn with(s: u32, i: usize) -> u32
    ensures { result ≡ with s i }
{
    join(s, single(i))
}

#[tactic(auto, unfolding(crate::specs::Sets::without))]
pub fn without(s: u32, i: usize) -> u32
    ensures { result ≡ without s i }
{
    minus(s, single(i))
}

// All numbers below n.
#[tactic(auto, using(crate::proofs::Shifts::below_in, crate::proofs::Shifts::below_past))]
pub fn below(n: usize) -> u32
    ensures { result ≡ below n }
{
    if 32 <= n {
        return 0xffff_ffff;
    }
    (1u32 << (n as u32)) - 1
}

// The least number of the set. 32 where there is none and no Option: so `least_of` has it, and who asks knows that there is one.
#[tactic(auto, unfolding(crate::specs::Sets::least_of))]
pub fn least(s: u32) -> usize
    ensures { result ≡ least_of s }
{
    s.trailing_zeros() as usize
}

// What is left of a set that is gone through, the least number first.
#[derive(Clone, Copy)]
pub struct Members {
    pub left: u32,
}

// The numbers of the set, the least first.
pub fn each(s: u32) -> Members
    ensures { result ≡ record { left = s } }
{
    Members { left: s }
}

impl Iterator for Members {
    type Item = usize;

    ghost use Rattle.sets.specs.Members.{TakesLeast};

    ghost next_gives = { λ s r t. TakesLeast s.left r t.left };

    ghost remaining = { λ s. at_most s.left };

    #[tactic(auto, using(crate::specs::Laws::least_less))]
    fn next(&mut self) -> Option<usize> {
        if self.left == 0 {
            return None;
        }
        let i = least(self.left);
        self.left = without(self.left, i);
        Some(i)
    }
}
