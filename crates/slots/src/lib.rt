// Places of a lent slice: what stands at one, and a store, which past the end changes nothing.
#![tactic(auto)]

ghost use Rattle.std.specs.Prelude.{◌≡◌, get_or, set};

// What stands at place i; past the end the default.
pub fn get_or<T: Copy>(xs: &[T], i: usize, default: T) -> T
    ensures { result ≡ get_or xs.now i default }
{
    xs.get(i).copied().unwrap_or(default)
}

// Stores where there is a place. By index: of a store through `get_mut` it was not proved what the slice is afterwards.
#[tactic(auto, using(laws::specs::Lists::set_past))]
pub fn put<T: Copy>(xs: &mut [T], i: usize, x: T)
    ensures { xs.new ≡ set xs.old i x }
{
    if i < xs.len() {
        xs[i] = x;
    }
}
