// The weak pair search: is there a loss of fewer than k stations that leaves a set not whole?
#![tactic(auto)]

ghost use Rattle.stations.specs.Sets.{◌is_in◌};
ghost use Rattle.stations.specs.Words.{members};
ghost use Rattle.mesh.specs.Table.{linked, Fits};
ghost use Rattle.pairs.specs.Piece.{Piece, Start, Fewest, SettledOf, WeakOf, AroundOf, FewerOf};

use stations::StationSet;

// A set of stations in a table: the table has a row for each of them, and its links are those of a mesh.
#[derive(Clone, Copy)]
pub struct Piece<'a> {
    pub table: &'a [u64],
    pub stations: StationSet,
    ghost piece: { Piece table.now stations },
}

// A pair that settles the search: the loss parts the two.
#[derive(Clone, Copy)]
pub struct WeakPair {
    pub one: usize,
    pub other: usize,
    pub loss: StationSet,
}

// The set of the two that has fewer stations.
fn fewer(s: StationSet, t: StationSet) -> StationSet
    ensures { FewerOf (members s) (members t) (members result) }
{
    if s.size() < t.size() { s } else { t }
}

impl<'a> Piece<'a> {
    // The weak pair search. `within` is what is left of the piece, the rest is taken out already; `among` are the stations that may be
    // sources, `from` the first of them. A source u is tried against each station v of the sources that is not linked to it: are there
    // `level` routes from v to the stations that are firm with u already, its links among them? Then v is firm with u too. Else the pair
    // settles the search: a loss of fewer than `level` stations parts the two, and with what was taken out it parts the piece. A source
    // that all the others are firm with is taken out. A loss that goes on has it, so the level falls; and each island that the loss
    // leaves has a link to it and another source, so its links may be the next sources, and so may the sources left.
    fn settle(
        self,
        within: StationSet,
        among: StationSet,
        from: usize,
        most: usize,
    ) -> Option<WeakPair>
        requires { Start self.table.now self.stations within among from }
        ensures { SettledOf self.entry.table.now self.entry.stations within among most result }
    {
        let mut q = within;
        let mut sources = among;
        let mut u = from;
        let mut level = most;
        // A `for` over the levels could not hand the pair out by its label.
        'pairs: loop {
            if level == 0 {
                break None;
            }
            let near = q.cut(StationSet::of_row(self.table, u));
            let mut known = near.with(u);
            for v in sources.minus(known) {
                let inner = q.without(u).without(v);
                let starts = StationSet::of_row(self.table, v);
                match flow::flow(self.table, inner, starts, known, level) {
                    Some(cut) => {
                        break 'pairs Some(WeakPair {
                            one: u,
                            other: v,
                            loss: cut.loss.join(self.stations.minus(q)),
                        });
                    }
                    None => {
                        known = known.with(v);
                    }
                }
            }
            q = q.without(u);
            level -= 1;
            sources = fewer(near, sources.without(u));
            let Some(next) = sources.first() else {
                break None;
            };
            u = next;
        }
    }

    // A station with the fewest links inside the piece. `from` is any of its stations. By `min_by_key` what its closure asks would be owed by hand.
    fn fewest(self, from: usize) -> usize
        requires { from is_in members self.stations }
        ensures { Fewest (linked self.entry.table.now) (members self.entry.stations) result }
    {
        let mut at = from;
        let mut best = self
            .stations
            .cut(StationSet::of_row(self.table, from))
            .size();
        for v in self.stations.without(from) {
            let links = self.stations.cut(StationSet::of_row(self.table, v)).size();
            if links < best {
                best = links;
                at = v;
            }
        }
        at
    }

    // A weak pair of the piece at k with a loss of fewer than k that parts it, or none.
    pub fn weak(self, k: usize) -> Option<WeakPair>
        ensures { WeakOf self.entry.table.now self.entry.stations k result }
    {
        let j = self.stations.first()?;
        self.settle(self.stations, self.stations, self.fewest(j), k)
    }

    // The same among the losses that have j and at most `most` stations, and each of whose islands has a link to j.
    pub fn around(self, j: usize, most: usize) -> Option<WeakPair>
        requires { j is_in members self.stations }
        ensures { AroundOf self.entry.table.now self.entry.stations j most result }
    {
        let links = self.stations.cut(StationSet::of_row(self.table, j));
        let u = links.first()?;
        self.settle(self.stations.without(j), links, u, most)
    }
}
