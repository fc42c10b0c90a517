// The list question: all groups at a level, in order, in a lent list. And the holding question about a row of such a list, where it stands.
#![tactic(auto)]

ghost use Rattle.groups.specs.Reply.{Replies, RowReplies};

use card::{Mesh, Refusal};
use stations::StationSet;
use verdicts::Answer;

// The list question. Refusals in the order 2, 3, 4, 1, 5, each decided before the first store.
pub fn groups(n: usize, table: &[u64], k: usize, list: &mut [u64]) -> Result<usize, Refusal>
    ensures { Replies n table.now k list.old list.new result }
{
    let mesh = Mesh::accept(n, table)?;
    card::test_level(k)?;
    card::test_list_room(n, k, list.len())?;
    let found = listing::list_within(mesh.table, mesh.stations(), k, list);
    Ok(found)
}

// The holding question about row i of a list, asked where it stands: four words starting at 4i are passed as a part of the list. A row that the list
// does not have is passed as an empty part, and refused as no set.
pub fn holding_at(
    n: usize,
    table: &[u64],
    k: usize,
    list: &[u64],
    i: usize,
) -> Result<Answer<StationSet>, Refusal>
    ensures { RowReplies n table.now k list.now i result }
{
    if list.len() / 4 <= i {
        return holding::holding(n, table, k, &list[..0]);
    }
    let at = i * 4;
    holding::holding(n, table, k, &list[at..at + 4])
}
