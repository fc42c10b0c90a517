// The fields and records of a survey file: reading, putting and testing them one by one.
#![tactic(auto)]

ghost use Rattle.std.specs.Prelude.{[], ◌∷◌, ◌≡◌, ◌+◌, ◌*◌, ◌<◌, ◌≤◌, length};
ghost use Rattle.card.specs.Card.{number_of, FirstFailing};
ghost use Rattle.records.specs.Bytes.{short, long, Octets, Kept};
ghost use Rattle.records.specs.Lines.{SERIAL, LINK, GIVEN_SERIAL};
ghost use Rattle.records.specs.Survey.{serial, low, high};
ghost use Rattle.records.specs.Steps.{SerialAt, LinkAt};

use card::Refusal;

// The 16-bit number at a place: the layout of the file says where each field begins.
#[tactic(auto, unfolding(crate::specs::Bytes::short))]
pub fn short_at(bytes: &[u8], at: usize) -> usize
    requires { at + 2 ≤ length bytes.now }
    ensures { (result ≡ short bytes.now at) × (result < 65536) × Octets bytes.now }
{
    usize::from(u16::from_le_bytes([bytes[at], bytes[at + 1]]))
}

// The 32-bit number at a place. Two widths, two functions here and below: the library has no trait over its `from_le_bytes`.
#[tactic(auto, unfolding(crate::specs::Bytes::short, crate::specs::Bytes::long))]
pub fn long_at(bytes: &[u8], at: usize) -> u32
    requires { at + 4 ≤ length bytes.now }
    ensures { result ≡ long bytes.now at }
{
    u32::from_le_bytes([bytes[at], bytes[at + 1], bytes[at + 2], bytes[at + 3]])
}

// A 16-bit number put at a place.
pub fn put_short(bytes: &mut [u8], at: usize, x: u16)
    requires { at + 2 ≤ length bytes.old }
    ensures { Kept at bytes.old bytes.new × (short bytes.new at ≡ x) }
{
    bytes[at..at + 2].copy_from_slice(&x.to_le_bytes());
}

// A 32-bit number put at a place.
pub fn put_long(bytes: &mut [u8], at: usize, x: u32)
    requires { at + 4 ≤ length bytes.old }
    ensures { Kept at bytes.old bytes.new × (long bytes.new at ≡ x) }
{
    bytes[at..at + 4].copy_from_slice(&x.to_le_bytes());
}

// The records of a survey file of so many stations and links: behind the head the serials, then the links.
#[derive(Clone, Copy)]
pub struct Records<'a> {
    pub bytes: &'a [u8],
    pub stations: usize,
    pub links: usize,
    ghost few: { stations ≤ 256 },
    ghost room: { 9 + stations * 4 + links * 4 ≤ length bytes.now },
}

impl<'a> Records<'a> {
    // The serial of station i.
    pub fn serial(self, i: usize) -> u32
        requires { i < self.stations }
        ensures { result ≡ serial 4 self.entry.bytes.now i }
    {
        long_at(self.bytes, 9 + i * 4)
    }

    // The two stations of link j.
    pub fn link(self, j: usize) -> (usize, usize)
        requires { j < self.links }
        ensures { (result.0 ≡ low 4 self.entry.stations self.entry.bytes.now j) × (result.1 ≡ high 4 self.entry.stations self.entry.bytes.now j) }
    {
        let at = 9 + self.stations * 4 + j * 4;
        (short_at(self.bytes, at), short_at(self.bytes, at + 2))
    }

    // The serial of station i, where it is above the last serial.
    fn serial_record(self, i: usize, last: u32) -> Option<u32>
        requires { i < self.stations }
        ensures { SerialAt self.entry.bytes.now (9 + i * 4) last result }
    {
        let x = self.serial(i);
        if last < x { Some(x) } else { None }
    }

    // Link j, where a < b < n and its number a * 256 + b is above that of the last link.
    fn link_record(self, j: usize, last: usize) -> Option<(usize, usize)>
        requires { j < self.links }
        ensures { LinkAt self.entry.bytes.now (9 + self.entry.stations * 4 + j * 4) self.entry.stations last result }
    {
        let (a, b) = self.link(j);
        if a < b && b < self.stations && last < a * 256 + b {
            Some((a, b))
        } else {
            None
        }
    }

    // 12: no serial of the file is 0, and each is above the one before. By number: a record is four bytes at a place that its number gives.
    pub fn test_serials(self) -> Result<(), Refusal>
        ensures { FirstFailing (SERIAL self.entry.stations self.entry.bytes.now ∷ []) (number_of result) }
    {
        let mut last = 0;
        for i in 0..self.stations {
            let Some(x) = self.serial_record(i, last) else {
                return Err(Refusal::Serial);
            };
            last = x;
        }
        Ok(())
    }

    // 13: each link is a pair a < b < n, and comes after the one before. By number, as the serials.
    pub fn test_links(self) -> Result<(), Refusal>
        ensures { FirstFailing (LINK self.entry.stations self.entry.links self.entry.bytes.now ∷ []) (number_of result) }
    {
        let mut last = 0;
        for j in 0..self.links {
            let Some((a, b)) = self.link_record(j, last) else {
                return Err(Refusal::Link);
            };
            last = a * 256 + b;
        }
        Ok(())
    }
}

// 12, of the serials that a writer is given: n of them, none 0, each above the one before.
pub fn test_given(n: usize, serials: &[u32]) -> Result<(), Refusal>
    ensures { FirstFailing (GIVEN_SERIAL n serials.now ∷ []) (number_of result) }
{
    if serials.len() != n {
        return Err(Refusal::Serial);
    }
    let mut last = 0;
    for serial in serials {
        if *serial <= last {
            return Err(Refusal::Serial);
        }
        last = *serial;
    }
    Ok(())
}
