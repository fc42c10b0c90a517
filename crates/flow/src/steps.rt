// The steps of `flow`: a search from the starts of a net, and the way back along it, which makes a linkage greater by one chain.
// Each station holds a station, itself at first. `first` has the stations that hold the source: the starts of the chains so far. What a station holds, and
// where a search came from, are two arrays of 256 bytes: nothing is on the heap.
ghost use Rattle.std.specs.Prelude.{ℕ};
ghost use Rattle.stations.specs.Words.{members};
ghost use Rattle.mesh.specs.Table.{Fits};
ghost use Rattle.flow.specs.Net.{net_of};
ghost use Rattle.flow.specs.Search.{SomeOf, Marked, Idle, Held, Searched, Start, Turned};

use stations::{Bits, StationSet};

// A station of `todo`, an end if there is one.
fn choose(todo: StationSet, ends: StationSet) -> Option<usize>
    ensures { SomeOf (members todo) result }
{
    todo.cut(ends).first().or_else(|| todo.first())
}

// Stores g at the stations of s, a word at a time: no other loop of a search runs as often.
fn mark(from: &mut [u8; 256], s: StationSet, g: u8)
    ensures { Marked from.old (members s) g from.new }
{
    let words = s.words();
    for (i, word) in words.iter().enumerate() {
        let bits = Bits { word: *word };
        for k in bits {
            from[i * 64 + k] = g;
        }
    }
}

// A search from the starts: `from` gets where it came from, for each station that is no start. It comes into a station w, out of the station v that
// w holds, and so into v itself and its links. Where v is an end, one more chain can be had; where no station waits, what it came into and not out of
// is a loss that leaves no chain. Ok is the station that holds the end, Err the loss.
pub(crate) fn search(
    table: &[u64],
    inner: StationSet,
    starts: StationSet,
    ends: StationSet,
    first: StationSet,
    hold: &[u8; 256],
    from: &mut [u8; 256],
) -> Result<usize, StationSet>
    requires { Fits table.now (members inner) × ((c : ℕ) × Held table.now inner starts ends first hold.now c) }
    ensures { Searched (net_of table.now inner starts ends) starts (members first) hold.now from.new result }
{
    let mut into = starts.cut(inner);
    let mut out = StationSet::empty();
    let mut todo = into.minus(first);
    while let Some(w) = choose(todo, ends) {
        let v = usize::from(hold[w]);
        if ends.has(v) {
            return Ok(w);
        }
        let fresh = StationSet::of_row(table, v).with(v).cut(inner).minus(into);
        into = into.join(fresh);
        out = out.with(v);
        todo = todo.without(w).join(fresh);
        mark(from, fresh, w as u8);
    }
    Err(into.minus(out))
}

// The way back along a search, from the station that holds an end: each station takes what the one before it held. It returns the start of the new
// chain.
pub(crate) fn turn(hold: &mut [u8; 256], from: &[u8; 256], starts: StationSet, last: usize) -> usize
    requires { Start starts hold.old from.now last }
    ensures { Turned starts hold.old from.now last hold.new result }
{
    let mut h = last;
    while !starts.has(h) {
        let g = usize::from(from[h]);
        hold[h] = hold[g];
        h = g;
    }
    h
}

// Each station holds itself.
pub(crate) fn idle(hold: &mut [u8; 256])
    ensures { Idle hold.new 256 }
{
    for (i, x) in hold.iter_mut().enumerate() {
        *x = i as u8;
    }
}
