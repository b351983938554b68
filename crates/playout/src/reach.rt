// Which stages stand upstream of which: masks, one bit a stage, and what they reach.
ghost use Rattle.std.specs.Prelude.{◌≡◌, ◌≤◌};
ghost use Rattle.playout.specs.Reach.{reach_below, reach_of, Ordered, Reaches};

use stages::marks::names;

// For each of eight stages the stages directly upstream: bit j names stage j.
pub type Masks = [u8; 8];

// The reach of stage i, as a mask: every stage in its mask together with their reaches.
#[tactic(auto, using(crate::proofs::Reached::reaches, crate::proofs::Reached::below_none))]
pub fn reach(masks: &Masks, i: usize) -> u8
    ensures value { result ≡ reach_of masks.now i }
    ensures reaches { Ordered masks.now → Reaches masks.now i result }
{
    match masks.get(i) {
        Some(mask) => reach_below(masks, *mask, i),
        None => 0,
    }
}

// The stages below n that a mask names, together with their reaches.
// It calls itself as the rule does, each time for a lower stage: a loop would need a table of reaches to fill.
fn reach_below(masks: &Masks, mask: u8, n: usize) -> u8
    requires { n ≤ 8 }
    ensures { result ≡ reach_below masks.now mask n }
{
    if n == 0 {
        return 0;
    }
    let j = n - 1;
    let lower = reach_below(masks, mask, j);
    if names(mask, j) {
        lower | 1 << j | reach_below(masks, masks[j], j)
    } else {
        lower
    }
}
