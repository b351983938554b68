// Marks, one a stage, and sets of stages as masks.
ghost use Rattle.std.specs.Prelude.{◌≡◌};
ghost use Rattle.stages.specs.Marks.{names, shown};

// The marks of one event: mark i is what stage i gave.
pub type Marks = [u32; 8];

// Whether a mask names stage j: bit j does.
#[tactic(auto, using(crate::proofs::Masks::names_byte))]
pub fn names(mask: u8, j: usize) -> bool
    ensures { result ≡ names mask j }
{
    j < 8 && (mask >> j) % 2 == 1
}

// The marks of the stages in a set, and 0 elsewhere.
pub fn show(among: u8, marks: &Marks) -> Marks
    ensures { result ≡ shown among marks.now }
{
    std::array::from_fn(|j| if names(among, j) { marks[j] } else { 0 })
}
