// A subtitle packet: up to 64 bytes of text for one channel.
ghost use Rattle.std.specs.Prelude.{◌≡◌, ◌-◌, ◌≤◌, ◌++◌, take, replicate};
ghost use Rattle.events.specs.Refusals.{reply};
ghost use Rattle.events.specs.Words.{packet_words, blank_packet, made_packet};
ghost use Rattle.events.specs.Fewness.{packet_few};

use crate::event::Event;
use crate::refusal::Refusal;

// A plain record: anyone may fill it in. Unchecked, a channel above 15 counts as 15 and a length above 64 as 64.
#[derive(Clone, Copy)]
pub struct Packet {
    pub channel: u8,
    pub length: u8,
    // all 64, since a packet is a plain record in fixed memory; those past the length mean nothing
    pub bytes: [u8; 64],
}

impl Packet {
    // A packet of the first `length` of these bytes, with 0 from there on.
    pub fn new(channel: u8, length: u8, text: &[u8; 64]) -> Result<Packet, Refusal>
        ensures { reply result ≡ made_packet channel length text.now }
    {
        if channel > 15 || length > 64 {
            return Err(Refusal::PacketRange);
        }
        let bytes = front(text, usize::from(length));
        Ok(Packet {
            channel,
            length,
            bytes,
        })
    }
}

// The first n bytes, with 0 from there on.
fn front(text: &[u8; 64], n: usize) -> [u8; 64]
    requires { n ≤ 64 }
    ensures { result ≡ take n text.now ++ replicate (64 - n) 0 }
{
    let mut bytes = [0; 64];
    bytes[..n].copy_from_slice(&text[..n]);
    bytes
}

impl Event for Packet {
    ghost words = { packet_words };

    ghost blank = { blank_packet };

    ghost few = { packet_few };

    fn count(&self) -> usize {
        2 + usize::from(self.length.min(64))
    }

    fn word(&self, k: usize) -> u64 {
        let length = usize::from(self.length.min(64));
        match k {
            0 => u64::from(self.channel.min(15)),
            1 => length as u64,
            _ => self.bytes[..length]
                .get(k - 2)
                .map_or(0, |byte| u64::from(*byte)),
        }
    }

    fn blank() -> Packet {
        Packet {
            channel: 0,
            length: 0,
            bytes: [0; 64],
        }
    }
}
