// Standings: the largest level at which some group has a station, and the smaller of two for a pair.
#![tactic(auto)]

ghost use Rattle.std.specs.Prelude.{ℕ, ◌*◌, ◌<◌, ◌≤◌, length};
ghost use Rattle.mesh.specs.Table.{linked};
ghost use Rattle.mesh.specs.Standing.{Standing, PairStanding};
ghost use Rattle.card.specs.Card.{Says};
ghost use Rattle.standings.specs.Reply.{Replies, station_order, pair_order};
ghost use Rattle.standings.specs.Steps.{Named, InGroup};

use card::{Mesh, Refusal};
use stations::StationSet;

// Has one of the first g rows of a list the station a?
fn named(list: &[u64], g: usize, a: usize) -> bool
    requires { g * 4 ≤ length list.now }
    ensures { Says (Named list.now g a) result }
{
    (0..g).any(|i| StationSet::of_row(list, i).has(a))
}

// Has some group at level k the station a? The groups are listed on the stack: 128 rows are the most that any level needs.
fn in_group(mesh: Mesh, a: usize, k: usize) -> bool
    requires { 0 < k }
    ensures { Says (InGroup mesh.entry.table.now mesh.entry.n k a) result }
{
    let mut list = [0; 512];
    let g = listing::list_within(mesh.table, mesh.stations(), k, &mut list);
    named(&list, g, a)
}

// The standing of a station, upward from level 1: what is in no group at a level is in none above.
fn standing(mesh: Mesh, a: usize) -> usize
    ensures { Standing (linked mesh.entry.table.now) mesh.entry.n a result }
{
    for v in 0..16 {
        if !in_group(mesh, a, v + 1) {
            return v;
        }
    }
    16
}

// The smaller of the two stations' standings.
fn smaller(mesh: Mesh, a: usize, b: usize) -> usize
    ensures { PairStanding (linked mesh.entry.table.now) mesh.entry.n a b result }
{
    standing(mesh, a).min(standing(mesh, b))
}

// The standing of a station. Refusals in the order 2, 3, 4, 7.
pub fn station_standing(n: usize, table: &[u64], a: usize) -> Result<usize, Refusal>
    ensures { Replies (station_order n table.now a) (Standing (linked table.now) n a) result }
{
    let mesh = Mesh::accept(n, table)?;
    card::test_station(n, a)?;
    let largest = standing(mesh, a);
    Ok(largest)
}

// The standing of a pair. Refusals in the order 2, 3, 4, 7.
pub fn pair_standing(n: usize, table: &[u64], a: usize, b: usize) -> Result<usize, Refusal>
    ensures { Replies (pair_order n table.now a b) (PairStanding (linked table.now) n a b) result }
{
    let mesh = Mesh::accept(n, table)?;
    card::test_pair(n, a, b)?;
    let least = smaller(mesh, a, b);
    Ok(least)
}
