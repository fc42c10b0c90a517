// The night list: reads a survey from standard input and prints its page. What the page is for which survey is `page::night_list`'s contract; reading
// and writing are all that is here.
#![tactic(auto)]

ghost use Rattle.std.specs.Prelude.{◌≤◌, length, IfOk};

use std::io;
use std::io::{Read, Write};

// Reads until the buffer is full or the input ends; how many bytes there are. std's own way to the end of an input fills a `Vec`, and nothing here is
// on the heap.
fn read_full<R: Read>(input: &mut R, bytes: &mut [u8]) -> io::Result<usize>
    ensures { IfOk result (λ n. n ≤ length bytes.new) }
{
    let mut n = 0;
    while n < bytes.len() {
        let more = input.read(&mut bytes[n..])?;
        if more == 0 {
            break;
        }
        n += more;
    }
    Ok(n)
}

// The page of a survey, in one write where the system takes it whole.
fn print<W: Write>(output: &mut W, survey: &[u8], page: &mut [u8]) -> io::Result<()> {
    let length = page::night_list(survey, page).unwrap_or(0);
    output.write_all(&page[..length])
}

// At most 33,802 bytes are read: a longer survey is no survey, and has one byte too many here too.
fn main(rt: HostRuntime) -> io::Result<()> {
    let mut survey = [0u8; 33802];
    let n = read_full(&mut rt.stdin(), &mut survey)?;
    let mut page = [0u8; 262144];
    print(&mut rt.stdout(), &survey[..n], &mut page)
}
