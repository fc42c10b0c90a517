// The lines of the night list. A sheet is a lent buffer with a place in it, and what is put goes behind what stands there. The room that each asks
// for is a little more than its line's: a number is given room for twenty digits.
#![tactic(auto)]

ghost use Rattle.std.specs.Prelude.{◌≡◌, ◌+◌, ◌*◌, ◌<◌, ◌≤◌, ◌++◌, length};
ghost use Rattle.stations.specs.Sets.{size};
ghost use Rattle.stations.specs.Words.{members};
ghost use Rattle.lines.specs.Lines.{decimal, labelled, serials_of, first_line, group_line, last_line, refused_line};
ghost use Rattle.lines.specs.Sheets.{Room, Put};

use stations::StationSet;

// A page while it is written: the bytes before `at` stand.
#[derive(Drop)]
pub struct Sheet<'a> {
    bytes: &'a mut [u8],
    at: usize,
}

impl<'a> Sheet<'a> {
    // The bytes before `at` stand already.
    pub fn new(bytes: &'a mut [u8], at: usize) -> Sheet<'a>
        ensures same { result.bytes.ghost_name ≡ bytes.entry.ghost_name }
        ensures begins { (result.at ≡ at) × (result.bytes.now ≡ bytes.old) }
    {
        Sheet { bytes, at }
    }

    // How many bytes stand.
    pub fn length(&self) -> usize
        ensures { result ≡ self.now.at }
    {
        self.at
    }

    // The bytes of a text.
    fn text(&mut self, words: &[u8])
        requires { Room (length words.now) self.old }
        ensures { Put words.now self.old self.new }
    {
        let end = self.at + words.len();
        self.bytes[self.at..end].copy_from_slice(words);
        self.at = end;
    }

    // A number in decimal, by the kit's `io`: `write!` goes to a `String`, and nothing here is on the heap.
    fn number(&mut self, x: u64)
        requires { Room 20 self.old }
        ensures { Put (decimal x) self.old self.new }
    {
        let mut digits = [0; 20];
        let count = io::decimal(x, &mut digits);
        self.text(&digits[..count]);
    }

    // A text and a number behind it.
    fn labelled(&mut self, words: &[u8], x: u64)
        requires { Room (length words.now + 20) self.old }
        ensures put { Put (words.now ++ decimal x) self.old self.new }
        ensures end { self.new.at ≤ self.old.at + length words.now + 20 }
    {
        self.text(words);
        self.number(x);
    }

    // A station's serial behind a space.
    fn serial(&mut self, x: u32)
        requires { Room 21 self.old }
        ensures put { Put (labelled " " x) self.old self.new }
        ensures end { self.new.at ≤ self.old.at + 11 }
    {
        self.labelled(b" ", u64::from(x));
    }

    // The serials of a set's stations, rising. A station beyond the serials has none, nor has a later one.
    fn serials(&mut self, serials: &[u32], row: StationSet)
        requires { (length serials.now ≤ 256) × Room (size 256 (members row) * 11 + 10) self.old }
        ensures put { Put (serials_of (length serials.now) serials.now (members row)) self.old self.new }
        ensures end { self.new.at ≤ self.old.at + size 256 (members row) * 11 }
    {
        for j in row {
            if serials.len() <= j {
                return;
            }
            self.serial(serials[j]);
        }
    }

    // The first line: the mark, the version, the number of stations, the number of links.
    pub fn first(&mut self, version: usize, stations: usize, links: usize)
        requires { Room 100 self.old }
        ensures put { Put (first_line version stations links) self.old self.new }
        ensures end { self.new.at ≤ self.old.at + 100 }
    {
        self.labelled(b"RLM ", version as u64);
        self.labelled(b" stations ", stations as u64);
        self.labelled(b" links ", links as u64);
        self.text(b"\n");
    }

    // A group's line: the level, the place in that level's list from 1, the serials.
    pub fn group(&mut self, k: usize, place: usize, serials: &[u32], row: StationSet)
        requires { (k < 100) × (place < 1000) × (length serials.now ≤ 256) × Room (size 256 (members row) * 11 + 60) self.old }
        ensures put { Put (group_line k place serials.now (members row)) self.old self.new }
        ensures end { self.new.at ≤ self.old.at + 7 + size 256 (members row) * 11 }
    {
        self.number(k as u64);
        self.labelled(b" ", place as u64);
        self.serials(serials, row);
        self.text(b"\n");
    }

    // The last line: the highest level with a group.
    pub fn last(&mut self, k: usize)
        requires { Room 40 self.old }
        ensures put { Put (last_line k) self.old self.new }
        ensures end { self.new.at ≤ self.old.at + 40 }
    {
        self.labelled(b"end ", k as u64);
        self.text(b"\n");
    }

    // The line of a refused survey.
    pub fn refused(&mut self, number: u64)
        requires { Room 40 self.old }
        ensures put { Put (refused_line number) self.old self.new }
        ensures end { self.new.at ≤ self.old.at + 40 }
    {
        self.labelled(b"refused ", number);
        self.text(b"\n");
    }
}
