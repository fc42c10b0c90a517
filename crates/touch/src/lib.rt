// The island of a station inside a set. A table and a set are passed apart here, as docs/ name them: the set is another one at each call.
#![tactic(auto)]

ghost use Rattle.stations.specs.Words.{members};
ghost use Rattle.mesh.specs.Table.{linked, Fits};
ghost use Rattle.touch.specs.Reach.{Island, Spread};

use stations::StationSet;

// The stations that some station of a set is linked to.
pub fn spread(table: &[u64], from: StationSet) -> StationSet
    requires { Fits table.now (members from) }
    ensures { Spread (linked table.now) (members from) (members result) }
{
    let mut sum = StationSet::empty();
    for j in from {
        sum = sum.join(StationSet::of_row(table, j));
    }
    sum
}

// The stations in touch with `start` inside `within`: none, if `start` is not in it. A wave at a time: the rows of a wave are
// read without waiting for one another.
pub fn island(table: &[u64], within: StationSet, start: usize) -> StationSet
    requires { Fits table.now (members within) }
    ensures { Island (linked table.now) (members within) start (members result) }
{
    if !within.has(start) {
        return StationSet::empty();
    }
    let mut reached = StationSet::one(start);
    let mut front = reached;
    loop {
        let near = spread(table, front).cut(within).minus(reached);
        if near.is_empty() {
            return reached;
        }
        reached = reached.join(near);
        front = near;
    }
}
