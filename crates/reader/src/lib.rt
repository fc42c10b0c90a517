// The reader of survey files. Every refusal is decided before the first store: one pass over the records tests them, a second one, which cannot fail,
// fills the buffers.
#![tactic(auto)]

ghost use Rattle.std.specs.Prelude.{◌≡◌};
ghost use Rattle.reader.specs.Reply.{version, stations, links, Reads};
ghost use Rattle.reader.specs.Steps.{Heads};

use card::Refusal;
use records::Records;

mod fill;
mod judge;

// The head of a survey file: its version, how many stations it has, and how many links.
#[derive(Clone, Copy)]
pub struct Heading {
    pub version: usize,
    pub stations: usize,
    pub links: usize,
}

impl Heading {
    // The records of the file that it heads.
    pub(crate) fn records(self, bytes: &[u8]) -> Records<'_>
        requires { Heads bytes.now self }
        ensures { (result.bytes ≡ bytes.entry) × (result.stations ≡ self.stations) × (result.links ≡ self.links) }
    {
        Records {
            bytes,
            stations: self.stations,
            links: self.links,
        }
    }
}

// The reader. Refusals in the order 8, 9, 10, 11, 14, 12, 13.
pub fn read(bytes: &[u8], serials: &mut [u32], table: &mut [u64]) -> Result<Heading, Refusal>
    ensures { Reads bytes.now serials.old table.old serials.new table.new result }
{
    let heading = judge::test_file(bytes, serials.len(), table.len())?;
    let file = heading.records(bytes);
    let n = heading.stations;
    let words = n * 4;
    fill::fill_serials(file, &mut serials[..n]);
    fill::fill_table(file, &mut table[..words]);
    Ok(heading)
}

// The heading of a reply, zeros for a refusal.
pub fn heading_of(reply: &Result<Heading, Refusal>) -> Heading
    ensures { (result.version ≡ version reply.now) × (result.stations ≡ stations reply.now) × (result.links ≡ links reply.now) }
{
    match reply {
        Ok(heading) => *heading,
        Err(_) => Heading {
            version: 0,
            stations: 0,
            links: 0,
        },
    }
}
