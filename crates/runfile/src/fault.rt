// What is wrong with a run file, and where.
ghost use Rattle.std.specs.Prelude.{◌≡◌, Err};

use events::refusal::Refusal;

// The first fault found: the reason, by the table of refusals, and the place in the file.
#[derive(Clone, Copy, Debug, PartialEq, Eq)]
pub struct Fault {
    pub why: Refusal,
    pub place: usize,
}

// Refuses for a reason, at a place.
pub(crate) fn refuse<T>(why: Refusal, place: usize) -> Result<T, Fault>
    ensures { result ≡ Err (record { why = why; place = place }) }
{
    Err(Fault { why, place })
}
