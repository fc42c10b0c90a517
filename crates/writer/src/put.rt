// A whole file put into a buffer of exactly its length: the head, the serials, the links.
ghost use Rattle.std.specs.Prelude.{◌≡◌, ◌+◌, ◌*◌, ◌<◌, ◌≤◌, length};
ghost use Rattle.records.specs.Bytes.{short, Kept};
ghost use Rattle.records.specs.Survey.{link_count};
ghost use Rattle.writer.specs.Steps.{HeadPut, SerialsPut, AllLinksPut, Ready, FilePut};

use card::Mesh;
use stations::Bits;

// The mark, the version and the two counts.
fn put_head(bytes: &mut [u8], n: usize, m: usize)
    requires { (n < 65536) × (m < 65536) × (9 ≤ length bytes.old) }
    ensures { HeadPut n m bytes.old bytes.new }
{
    bytes[..3].copy_from_slice(b"RLM");
    records::put_short(bytes, 3, 1);
    records::put_short(bytes, 5, n as u16);
    records::put_short(bytes, 7, m as u16);
}

// The serials.
fn put_serials(bytes: &mut [u8], serials: &[u32])
    requires { 9 + length serials.now * 4 ≤ length bytes.old }
    ensures { SerialsPut (length serials.now) serials.now bytes.old bytes.new }
{
    for (i, serial) in serials.iter().enumerate() {
        records::put_long(bytes, 9 + i * 4, *serial);
    }
}

// One link's record at a place: two 16-bit numbers.
fn put_link(bytes: &mut [u8], at: usize, a: usize, b: usize)
    requires { (a < 256) × (b < 256) × (at + 4 ≤ length bytes.old) }
    ensures { Kept at bytes.old bytes.new × (short bytes.new at ≡ a) × (short bytes.new (at + 2) ≡ b) }
{
    records::put_short(bytes, at, a as u16);
    records::put_short(bytes, at + 2, b as u16);
}

// Every link of the mesh behind the serials: station by station, and of each the ones above it, lowest first. Stations are numbers: a range goes over
// them; those above go a word and its bits at a time, since no other loop of the writer runs as often. How many links came before a link is known by
// counting alone, so its place is counted up.
fn put_links(bytes: &mut [u8], mesh: Mesh)
    requires { 9 + mesh.n * 4 + link_count mesh.n mesh.table.now * 4 ≤ length bytes.old }
    ensures { AllLinksPut mesh.entry.n mesh.entry.table.now bytes.old bytes.new }
{
    let mut place = 9 + mesh.n * 4;
    for a in 0..mesh.n {
        let words = crate::judge::above(mesh, a).words();
        for (i, word) in words.iter().enumerate() {
            let bits = Bits { word: *word };
            for k in bits {
                put_link(bytes, place, a, i * 64 + k);
                place += 4;
            }
        }
    }
}

// A whole file, of a mesh with m links, into a buffer of exactly its length.
pub(crate) fn put_file(mesh: Mesh, m: usize, serials: &[u32], bytes: &mut [u8])
    requires { Ready mesh.n m serials.now mesh.table.now (length bytes.old) }
    ensures { FilePut mesh.entry.n m serials.now mesh.entry.table.now bytes.old bytes.new }
{
    put_head(bytes, mesh.n, m);
    put_serials(bytes, serials);
    put_links(bytes, mesh);
}
