// The tests of the writer, in the order 2, 3, 4, 12, 10, 14, and the count of links that they need.
ghost use Rattle.std.specs.Prelude.{IfOk, ◌&&◌, [], ◌∷◌, ◌≡◌, ℕ, ◌+◌, ◌*◌, ◌<◌, ◌≤◌, ltb};
ghost use Rattle.stations.specs.Words.{members};
ghost use Rattle.mesh.specs.Table.{linked};
ghost use Rattle.card.specs.Card.{number_of, FirstFailing};
ghost use Rattle.records.specs.Survey.{link_count};
ghost use Rattle.records.specs.Lines.{LINK_COUNT, FILE_ROOM, writer_order};

use card::{Mesh, Refusal};
use stations::StationSet;

// The stations above a that a is linked to.
pub(crate) fn above(mesh: Mesh, a: usize) -> StationSet
    requires { a < mesh.n }
    ensures { (x : ℕ) → members result x ≡ (linked mesh.entry.table.now a x && ltb a x) }
{
    mesh.links(a).minus(StationSet::first_n(a + 1))
}

// How many links a mesh has. Its stations are numbers, so a range goes over them.
pub(crate) fn count_links(mesh: Mesh) -> usize
    ensures { (result ≡ link_count mesh.entry.n mesh.entry.table.now) × (result ≤ 65536) }
{
    let mut m = 0;
    for a in 0..mesh.n {
        m += above(mesh, a).size();
    }
    m
}

// 10, 14: at most 8,192 links, and room for the file.
fn test_size(mesh: Mesh, room: usize) -> Result<(), Refusal>
    ensures { FirstFailing (LINK_COUNT mesh.entry.n mesh.entry.table.now ∷ FILE_ROOM mesh.entry.n mesh.entry.table.now room ∷ []) (number_of result) }
{
    let m = count_links(mesh);
    if 8192 < m {
        return Err(Refusal::Count);
    }
    if room < 9 + mesh.n * 4 + m * 4 {
        return Err(Refusal::Room);
    }
    Ok(())
}

// Every test of the writer: 2, 3, 4, 12, 10, 14.
pub(crate) fn test_survey<'a>(
    n: usize,
    serials: &[u32],
    table: &'a [u64],
    room: usize,
) -> Result<Mesh<'a>, Refusal>
    ensures tested { FirstFailing (writer_order n serials.now table.now room) (number_of result) }
    ensures same { IfOk result (λ m. (m.n ≡ n) × (m.table ≡ table.entry)) }
{
    let mesh = Mesh::accept(n, table)?;
    records::test_given(n, serials).and(test_size(mesh, room))?;
    Ok(mesh)
}
