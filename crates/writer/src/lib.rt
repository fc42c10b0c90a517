// The writer of survey files. Every refusal is decided before the first store.
#![tactic(auto)]

ghost use Rattle.writer.specs.Reply.{Writes};

use card::Refusal;

mod judge;
mod put;

// The writer: the length of the file. Refusals in the order 2, 3, 4, 12, 10, 14.
pub fn write(n: usize, serials: &[u32], table: &[u64], bytes: &mut [u8]) -> Result<usize, Refusal>
    ensures { Writes n serials.now table.now bytes.old bytes.new result }
{
    let mesh = judge::test_survey(n, serials, table, bytes.len())?;
    let m = judge::count_links(mesh);
    let length = 9 + n * 4 + m * 4;
    put::put_file(mesh, m, serials, &mut bytes[..length]);
    Ok(length)
}
