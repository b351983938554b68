// Anything that can be reported: a list of numbers.
ghost use Rattle.std.specs.Prelude.{◌≡◌, ℕ, ◌≤◌, List, length, slice_index};

pub trait Figures {
    ghost figures: { Self → List ℕ };

    // How many figures there are, at most 64.
    fn count(&self) -> usize
        ensures value { result ≡ length (figures self.now) }
        ensures few { result ≤ 64 };

    // Figure k, counted from 0, or 0 past the last, as the rule of figures has it: no Option.
    fn figure(&self, k: usize) -> u64
        ensures { result ≡ slice_index (figures self.now) k };
}
