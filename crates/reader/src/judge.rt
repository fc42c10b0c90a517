// The tests of the reader, in the order 8, 9, 10, 11, 14, 12, 13.
ghost use Rattle.std.specs.Prelude.{[], ◌∷◌, ◌+◌, ◌*◌, ◌≤◌, length, IfOk};
ghost use Rattle.card.specs.Card.{number_of, FirstFailing};
ghost use Rattle.records.specs.Lines.{MARK, VERSION, COUNT, LENGTH, ROOM, SERIAL, LINK, reader_order};
ghost use Rattle.reader.specs.Steps.{Heads};

use crate::Heading;
use card::Refusal;
use records::Records;

// 8: nine bytes or more, that begin with the mark.
fn test_mark(bytes: &[u8]) -> Result<(), Refusal>
    ensures { FirstFailing (MARK bytes.now ∷ []) (number_of result) }
{
    if bytes.len() < 9 || !bytes.starts_with(b"RLM") {
        return Err(Refusal::Mark);
    }
    Ok(())
}

// 9, 10, 11: version 1, at most 256 stations and 8,192 links, and as many bytes as these need.
fn heading(bytes: &[u8]) -> Result<Heading, Refusal>
    requires { 9 ≤ length bytes.now }
    ensures tested { FirstFailing (VERSION bytes.now ∷ COUNT bytes.now ∷ LENGTH bytes.now ∷ []) (number_of result) }
    ensures heads { IfOk result (Heads bytes.now) }
{
    let version = records::short_at(bytes, 3);
    let stations = records::short_at(bytes, 5);
    let links = records::short_at(bytes, 7);
    if version != 1 {
        return Err(Refusal::Version);
    }
    if 256 < stations || 8192 < links {
        return Err(Refusal::Count);
    }
    if bytes.len() != 9 + stations * 4 + links * 4 {
        return Err(Refusal::Length);
    }
    Ok(Heading {
        version,
        stations,
        links,
    })
}

// 14: room for n serials and 4n words.
fn test_room(n: usize, serials: usize, words: usize) -> Result<(), Refusal>
    requires { n ≤ 256 }
    ensures { FirstFailing (ROOM n serials words ∷ []) (number_of result) }
{
    if serials < n || words < n * 4 {
        return Err(Refusal::Room);
    }
    Ok(())
}

// 12, 13: the records, once the file has its length.
fn test_records(file: Records) -> Result<(), Refusal>
    ensures { FirstFailing
        (SERIAL file.entry.stations file.entry.bytes.now ∷ LINK file.entry.stations file.entry.links file.entry.bytes.now ∷ [])
        (number_of result) }
{
    file.test_serials()?;
    file.test_links()
}

// Every test of the reader: 8, 9, 10, 11, 14, 12, 13.
pub(crate) fn test_file(bytes: &[u8], serials: usize, words: usize) -> Result<Heading, Refusal>
    ensures tested { FirstFailing (reader_order bytes.now serials words) (number_of result) }
    ensures heads { IfOk result (Heads bytes.now) }
{
    test_mark(bytes)?;
    let heading = heading(bytes)?;
    let file = heading.records(bytes);
    test_room(file.stations, serials, words).and(test_records(file))?;
    Ok(heading)
}
