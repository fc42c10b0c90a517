// The search for the groups within a set, over the rows of a list.
ghost use Rattle.std.specs.Prelude.{◌≡◌, ℕ, ◌+◌, ◌*◌, ◌<◌, ◌≤◌, length};
ghost use Rattle.stations.specs.Sets.{Set};
ghost use Rattle.stations.specs.Words.{members};
ghost use Rattle.mesh.specs.Mesh.{Mesh};
ghost use Rattle.mesh.specs.Table.{linked, Fits};
ghost use Rattle.listing.specs.List.{set_at};
ghost use Rattle.listing.specs.Steps.{Pruned, Dividing};
ghost use Rattle.listing.specs.Searches.{Stands, Later, Turn, Filled, Parted};

use pairs::Piece;
use stations::StationSet;

// A search at level k: rows 0 to done - 1 of the list are groups, rows done to all - 1 are unfinished pieces.
#[derive(Drop)]
pub(crate) struct Search<'t, 'l> {
    pub(crate) table: &'t [u64],
    pub(crate) k: usize,
    pub(crate) list: &'l mut [u64],
    pub(crate) done: usize,
    pub(crate) all: usize,
}

impl Search<'_, '_> {
    // The set in row i.
    fn row(&self, i: usize) -> StationSet
        requires { i * 4 + 4 ≤ length self.now.list.now }
        ensures { members result ≡ set_at self.now.list.now i }
    {
        StationSet::of_row(self.list, i)
    }

    // Takes out of p each station with fewer than k links to what is left of it. It goes by rounds: a round looks at each station of todo once, and
    // the links of those it takes out are what the next one looks at.
    fn prune(&self, p: StationSet) -> StationSet
        requires { Fits self.now.table.now (members p) × Mesh (linked self.now.table.now) }
        ensures { Pruned (linked self.now.table.now) self.now.k (members p) (members result) }
    {
        let mut left = p;
        let mut todo = p;
        while !todo.is_empty() {
            let mut again = StationSet::empty();
            for v in todo {
                let links = left.cut(StationSet::of_row(self.table, v));
                if links.size() < self.k {
                    left = left.without(v);
                    again = again.join(links);
                }
            }
            todo = again.cut(left);
        }
        left
    }

    // The last row takes the place of the first unfinished piece.
    fn fill(&mut self)
        requires { (self.old.done < self.old.all) × (self.old.all * 4 ≤ length self.old.list.now) }
        ensures { Filled self.old self.new }
    {
        let g = self.done;
        let last = self.all - 1;
        self.row(last).put_row(self.list, g);
        self.all = last;
    }

    // Puts the islands that the loss s leaves of p, each joined with s, behind the rows, but for those of k stations or fewer.
    fn divide(&mut self, p: StationSet, s: StationSet)
        requires { Dividing self.old.table.now self.old.k (members p) (members s) self.old.list.now self.old.all }
        ensures { Parted (members p) self.old self.new }
    {
        let mut rest = p.minus(s);
        while let Some(v) = rest.first() {
            let island = touch::island(self.table, rest, v);
            let piece = island.join(s);
            rest = rest.minus(island);
            if self.k < piece.size() {
                let end = self.all;
                piece.put_row(self.list, end);
                self.all = end + 1;
            }
        }
    }

    // Takes up the first unfinished piece. It is dropped if it is too small, stays if it holds, and is divided by a loss otherwise: the last row takes
    // its place, and the parts stand at the end.
    fn turn(&mut self)
        requires less { self.old.done < self.old.all }
        requires state { (w : ℕ) × (D : Set) × Stands w D self.old }
        ensures { Turn self.old self.new }
    {
        let g = self.done;
        let p = self.prune(self.row(g));
        if p.size() <= self.k {
            self.fill();
            return;
        }
        let piece = Piece {
            table: self.table,
            stations: p,
        };
        match piece.weak(self.k) {
            None => {
                p.put_row(self.list, g);
                self.done = g + 1;
            }
            Some(pair) => {
                self.fill();
                self.divide(p, pair.loss);
            }
        }
    }

    // The search goes on until every row holds.
    pub(crate) fn gather(&mut self)
        requires { (w : ℕ) × (D : Set) × Stands w D self.old }
        ensures later { Later self.old self.new }
        ensures over { self.new.all ≤ self.new.done }
    {
        while self.done < self.all {
            self.turn();
        }
    }
}
