// An event, by its words.
ghost use Rattle.std.specs.Prelude.{◌≡◌, ℕ, ◌≤◌, List, length, slice_index};

// A kind of event. An event means its words: at most 66 numbers, each below 2^64.
pub trait Event: Copy {
    ghost words: { Self → List ℕ };

    ghost blank: { Self };

    // How many words there are.
    fn count(&self) -> usize
        ensures { result ≡ length (words self.now) };

    // Word k, counted from 0, or 0 past the last, as the rule of words has it: no Option.
    fn word(&self, k: usize) -> u64
        ensures { result ≡ slice_index (words self.now) k };

    // The blank event of this kind.
    fn blank() -> Self
        ensures { result ≡ blank };

    ghost few: { (e : Self) → length (words e) ≤ 66 };
}
