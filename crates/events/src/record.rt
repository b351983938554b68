// Records in a byte string: numbers are unsigned and little-endian.
ghost use Rattle.std.specs.Prelude.{◌≡◌, take, drop};
ghost use Rattle.events.specs.Records.{cue_at, u32_at, u64_at, within};

use crate::cue::Cue;

// How many bytes a cue record has: channel, action, two that are ignored, item, frame.
pub const CUE_SIZE: usize = 16;

// The 32-bit number at a place, if it lies within the bytes.
pub fn u32_at(bytes: &[u8], at: usize) -> Option<u32>
    ensures { result ≡ within bytes.now at 4 (u32_at bytes.now at) }
{
    Some(u32::from_le_bytes(array_at(bytes, at)?))
}

// The 64-bit number at a place, if it lies within the bytes.
pub fn u64_at(bytes: &[u8], at: usize) -> Option<u64>
    ensures { result ≡ within bytes.now at 8 (u64_at bytes.now at) }
{
    Some(u64::from_le_bytes(array_at(bytes, at)?))
}

// The cue whose record begins at a place, if it lies within the bytes.
pub fn cue_at(bytes: &[u8], at: usize) -> Option<Cue>
    ensures { result ≡ within bytes.now at 16 (cue_at bytes.now at) }
{
    let [channel, action, ..] = array_at::<CUE_SIZE>(bytes, at)?;
    Some(Cue {
        channel,
        action,
        item: u32_at(bytes, at + 4)?,
        frame: u64_at(bytes, at + 8)?,
    })
}

// As many bytes as the array holds, from a place on, if they lie within the bytes.
fn array_at<const N: usize>(bytes: &[u8], at: usize) -> Option<[u8; N]>
    ensures { result ≡ within bytes.now at N (take N (drop at bytes.now)) }
{
    Some(*bytes.get(at..)?.first_chunk()?)
}
