// The list of the groups within a set of stations. The rows of the lent list are the only room it works in.
#![tactic(auto)]

ghost use Rattle.stations.specs.Words.{members};
ghost use Rattle.listing.specs.List.{Asked, Listing};

use stations::StationSet;
use steps::Search;

mod rows;
mod steps;

// The groups at k within a set, in order, from row 0 of the list on; the other rows that it has room for become zero. It returns how many there are.
// Its parameters stay apart, as docs/ name them; the steps have them in a `Search`.
pub fn list_within(table: &[u64], set: StationSet, k: usize, list: &mut [u64]) -> usize
    requires { Asked table.now (members set) k list.old }
    ensures { Listing table.now (members set) k list.old list.new result }
{
    let n = set.size();
    if n <= k {
        return 0;
    }
    let most = (n - k).div_ceil(2);
    set.put_row(list, 0);
    let mut search = Search {
        table,
        k,
        list,
        done: 0,
        all: 1,
    };
    search.gather();
    let found = search.done;
    rows::clear(search.list, found, most);
    rows::sort(search.list, found);
    found
}
