// A plan: where sequences start, and how the stages depend on one another.
// The type stands alone in this file, so that definitions may name it; its methods are in `making`.
ghost use Rattle.std.specs.Prelude.{◌≡◌, ◌^◌, ◌≤◌, length};
ghost use Rattle.playout.specs.Reach.{Ordered};

use crate::reach::Masks;

pub mod making;

#[derive(Clone, Copy)]
pub struct Plan {
    start: u64,
    stages: usize,
    // eight, 0 past the stages: a plan is Copy, and arrayvec's ArrayVec is not
    masks: Masks,
    ghost started: { start ≤ 2 ^ 62 },
    ghost some: { 1 ≤ stages },
    ghost few: { stages ≤ 8 },
    ghost eight: { length masks ≡ 8 },
    ghost ordered: { Ordered masks },
}
