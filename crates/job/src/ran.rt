// What a run of a job left.
ghost use Rattle.std.specs.Prelude.{◌≤◌};
ghost use Rattle.image.specs.Limits.{most_cells};

use answer::Answer;
use image::Image;

// Its answer, and the cells, of which the first are the design's. There is no heap, so the others stand unused.
#[derive(Clone, Copy)]
pub struct Ran {
    pub answer: Answer,
    pub cells: [u32; Image::CELLS as usize],
    pub count: usize,
    ghost within: { count ≤ most_cells },
}
