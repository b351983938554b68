// A table of the channels, by its figures.
ghost use Rattle.std.specs.Prelude.{◌≡◌, ℕ, map, slice_index};

use crate::CHANNELS;

// What a table keeps of a channel: it is told as one figure.
pub trait Channel: Copy {
    ghost figure: { Self → ℕ };

    fn figure(self) -> u64
        ensures { result ≡ figure self };
}

// The figure of channel i, or 0 if there is no such channel.
pub fn figure<T: Channel>(table: &[T; CHANNELS], i: usize) -> u64
    ensures { result ≡ slice_index (map T.figure table.now) i }
{
    table.get(i).map_or(0, |channel| channel.figure())
}
