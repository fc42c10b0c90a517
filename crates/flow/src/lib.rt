// Chains that share no station between two sets of ends, and a loss that leaves none; routes between two stations.
#![tactic(auto)]

ghost use Rattle.std.specs.Prelude.{ℕ};
ghost use Rattle.mesh.specs.Table.{Fits};
ghost use Rattle.stations.specs.Words.{members};
ghost use Rattle.flow.specs.Net.{net_of, Flow};
ghost use Rattle.flow.specs.Pair.{Asked, BetweenOf};

use stations::StationSet;

mod steps;

// Fewer chains than asked for: how many there are, and as many stations whose loss leaves no chain.
#[derive(Clone, Copy)]
pub struct Cut {
    pub chains: usize,
    pub loss: StationSet,
}

// Chains of links of the table inside `inner`, from a start to an end, that share no station. A station that is both is a chain by itself.
// None says that there are as many as asked for. The net is passed in its parts, as docs/ name them: each call makes
// another one, and the search goes on with the parts.
pub fn flow(
    table: &[u64],
    inner: StationSet,
    starts: StationSet,
    ends: StationSet,
    limit: usize,
) -> Option<Cut>
    requires { Fits table.now (members inner) }
    ensures { Flow (net_of table.now inner starts ends) limit result }
{
    let mut first = inner.cut(starts).cut(ends);
    let alone = first.size();
    if limit <= alone {
        return None;
    }
    let mut hold: [u8; 256] = [0; 256];
    let mut from: [u8; 256] = [0; 256];
    steps::idle(&mut hold);
    for chains in alone..limit {
        match steps::search(table, inner, starts, ends, first, &hold, &mut from) {
            Ok(last) => {
                let start = steps::turn(&mut hold, &from, starts, last);
                first = first.with(start);
            }
            Err(loss) => {
                return Some(Cut { chains, loss });
            }
        }
    }
    None
}

// Routes between two stations of a set: chains that share no station but these two. Their own link is left out.
pub fn between(table: &[u64], set: StationSet, a: usize, b: usize, limit: usize) -> Option<Cut>
    requires { Asked table.now set a b }
    ensures { BetweenOf table.now set a b limit result }
{
    let inner = set.without(a).without(b);
    let starts = StationSet::of_row(table, a);
    let ends = StationSet::of_row(table, b);
    flow(table, inner, starts, ends, limit)
}
