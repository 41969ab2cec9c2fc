// A place for each body in a lent slice: where it stands, or the line of its first instruction.
#![tactic(auto)]

ghost use Rattle.std.specs.Prelude.{◌≡◌, ◌+◌, ◌-◌, get_or};

// The place of the body after b.
#[tactic(auto, using(laws::specs::Lists::none_past))]
pub fn place_after(places: &[usize], b: usize) -> usize
    ensures { result ≡ get_or places.now (b + 1) 0 }
{
    if b < places.len() {
        return slots::get_or(places, b + 1, 0);
    }
    0
}

// How many lines lie from one place to another that is not before it.
pub fn distance(from: usize, to: usize) -> usize
    ensures { result ≡ to - from }
{
    to.saturating_sub(from)
}
