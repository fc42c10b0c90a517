// A table that passed its tests: what every question goes by. The questions themselves take n and the table apart, since these are what is tested.
ghost use Rattle.std.specs.Prelude.{IfOk, ◌≡◌, ℕ, ◌<◌};
ghost use Rattle.stations.specs.Sets.{stations};
ghost use Rattle.stations.specs.Words.{members};
ghost use Rattle.mesh.specs.Table.{linked, Table};
ghost use Rattle.card.specs.Card.{number_of, FirstFailing, table_order};

use crate::Refusal;
use stations::StationSet;

// A lent table and how many stations it has. That it passed its tests is known of each such value.
#[derive(Clone, Copy)]
pub struct Mesh<'a> {
    pub n: usize,
    pub table: &'a [u64],
    ghost accepted: { Table n table.now },
}

impl<'a> Mesh<'a> {
    // 2, 3, 4: the table, if it passes its tests.
    pub fn accept(n: usize, table: &'a [u64]) -> Result<Self, Refusal>
        ensures refused { FirstFailing (table_order n table.now) (number_of result) }
        ensures same { IfOk result (λ m. (m.n ≡ n) × (m.table ≡ table.entry)) }
    {
        crate::test_table(n, table)?;
        Ok(Mesh { n, table })
    }

    // All its stations.
    pub fn stations(self) -> StationSet
        ensures { (x : ℕ) → members result x ≡ stations self.entry.n x }
    {
        StationSet::first_n(self.n)
    }

    // The stations that station a is linked to.
    pub fn links(self, a: usize) -> StationSet
        requires { a < self.n }
        ensures { (x : ℕ) → members result x ≡ linked self.entry.table.now a x }
    {
        StationSet::of_row(self.table, a)
    }
}
