// The page of the night list, as bytes in a lent buffer: a survey is read, its groups are listed level by level, and each line is put after the last.
// Reading the survey and writing the page out are left to the program.
#![tactic(auto)]

ghost use Rattle.std.specs.Prelude.{◌≡◌, ◌+◌, ◌≤◌, length};
ghost use Rattle.mesh.specs.Table.{linked};
ghost use Rattle.lines.specs.Sheets.{Room};
ghost use Rattle.page.specs.Page.{Last};
ghost use Rattle.page.specs.Reply.{Prints};
ghost use Rattle.page.specs.Steps.{levels_room, Fit, LevelPut, LevelsPut, SurveyPut, PagePut};

use card::{Mesh, Refusal};
use lines::Sheet;
use stations::StationSet;

// An accepted survey, as the reader leaves it.
#[derive(Clone, Copy)]
struct Survey<'m, 's> {
    version: usize,
    links: usize,
    mesh: Mesh<'m>,
    serials: &'s [u32],
    ghost all_serials: { length serials.now ≡ mesh.n },
}

impl Survey<'_, '_> {
    // The lines of a level: the first g rows of its list, by their numbers, since a line has its row's and a row is four elements of the list.
    fn level(&self, sheet: &mut Sheet, k: usize, list: &[u64], g: usize)
        requires { Fit k list.now g sheet.old }
        ensures { LevelPut k self.now.serials.now list.now g sheet.old sheet.new }
    {
        for i in 0..g {
            sheet.group(k, i + 1, self.serials, StationSet::of_row(list, i));
        }
    }

    // The lines of all levels from 1 up, to 16 or to the first that has no group. It returns the last that has one.
    fn levels(&self, sheet: &mut Sheet) -> usize
        requires { Room (levels_room 16 + 60) sheet.old }
        ensures put { LevelsPut self.now.mesh.n self.now.mesh.table.now self.now.serials.now result sheet.old sheet.new }
        ensures top { result ≤ 16 }
        ensures last { Last (linked self.now.mesh.table.now) self.now.mesh.n result }
    {
        let all = self.mesh.stations();
        let mut list = [0; 512];
        for top in 0..16 {
            let g = listing::list_within(self.mesh.table, all, top + 1, &mut list);
            if g == 0 {
                return top;
            }
            self.level(sheet, top + 1, &list, g);
        }
        16
    }

    // The page.
    fn print(&self, sheet: &mut Sheet)
        requires { Room 262144 sheet.old }
        ensures { SurveyPut self.now.version self.now.mesh.n self.now.links self.now.mesh.table.now self.now.serials.now sheet.old sheet.new }
    {
        sheet.first(self.version, self.mesh.n, self.links);
        let top = self.levels(sheet);
        sheet.last(top);
    }
}

// The page of any survey, with room of its own for its serials and its table, on the stack.
fn print(survey: &[u8], sheet: &mut Sheet)
    requires { Room 262144 sheet.old }
    ensures { PagePut survey.now sheet.old sheet.new }
{
    let mut serials = [0; 256];
    let mut table = [0; 1024];
    match reader::read(survey, &mut serials, &mut table) {
        Ok(heading) => {
            let n = heading.stations;
            let mesh = Mesh {
                n,
                table: &table[..n * 4],
            };
            let survey = Survey {
                version: heading.version,
                links: heading.links,
                mesh,
                serials: &serials[..n],
            };
            survey.print(sheet);
        }
        Err(refusal) => sheet.refused(u64::from(refusal)),
    }
}

// The night list. Refusal 14 where the buffer has fewer than 262,144 bytes.
pub fn night_list(survey: &[u8], page: &mut [u8]) -> Result<usize, Refusal>
    ensures { Prints survey.now page.old page.new result }
{
    if page.len() < 262144 {
        return Err(Refusal::Room);
    }
    let mut sheet = Sheet::new(page, 0);
    print(survey, &mut sheet);
    Ok(sheet.length())
}
