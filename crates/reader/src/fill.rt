// The second pass of the reader, over a file that passed every test: it fills the buffers and cannot fail.
ghost use Rattle.std.specs.Prelude.{◌≡◌, ◌+◌, ◌*◌, ◌<◌, ◌≤◌, length};
ghost use Rattle.reader.specs.Steps.{Accepted, SerialsFilled, LinkPut, Filled};

use records::Records;

// The serials of the file into their buffer.
pub(crate) fn fill_serials(file: Records, serials: &mut [u32])
    requires { length serials.old ≤ file.stations }
    ensures { SerialsFilled file.entry.bytes.now (length serials.old) serials.old serials.new }
{
    for (i, serial) in serials.iter_mut().enumerate() {
        *serial = file.serial(i);
    }
}

// Station b into the row of station a.
fn put_link(table: &mut [u64], a: usize, b: usize)
    requires { (b < 256) × (a * 4 + 4 ≤ length table.old) }
    ensures { LinkPut table.old a b table.new }
{
    table[a * 4 + b / 64] |= 1 << (b % 64);
}

// The links of the file into a table of zeros, each in both rows: by number, as `records` tells them.
fn fill_links(file: Records, table: &mut [u64])
    requires { Accepted file.bytes.now file.stations file.links × Filled file.bytes.now file.stations 0 table.old }
    ensures { Filled file.entry.bytes.now file.entry.stations file.entry.links table.new }
{
    for j in 0..file.links {
        let (a, b) = file.link(j);
        put_link(table, a, b);
        put_link(table, b, a);
    }
}

// The table of the file into its buffer.
pub(crate) fn fill_table(file: Records, table: &mut [u64])
    requires { Accepted file.bytes.now file.stations file.links × (length table.old ≡ file.stations * 4) }
    ensures { Filled file.entry.bytes.now file.entry.stations file.entry.links table.new }
{
    table.fill(0);
    fill_links(file, table);
}
