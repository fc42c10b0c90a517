// The holding question of a set, with the smallest and first weak set.
#![tactic(auto)]

ghost use Rattle.stations.specs.Words.{members};
ghost use Rattle.mesh.specs.Table.{linked};
ghost use Rattle.mesh.specs.Mesh.{Answers};
ghost use Rattle.verdicts.specs.Verdicts.{SmallestOf, SmallestWeak, FirstWeak, Trial, Led, reply, JudgedOf};

use pairs::{Piece, WeakPair};
use stations::StationSet;

// What is said of a set: it holds, it has k stations or fewer, or it is weak, by the loss W.
#[derive(Clone, Copy)]
pub enum Answer<W> {
    Holds,
    Few,
    Weak(W),
}

// A weak pair whose loss is as small as any: each loss found lowers the level asked for, and no loss has fewer than 0 stations.
fn smallest(piece: Piece, k: usize) -> Option<WeakPair>
    ensures { SmallestOf piece.entry.table.now piece.entry.stations k result }
{
    let mut best = None;
    let mut level = k;
    while 0 < level {
        let Some(pair) = piece.weak(level) else {
            break;
        };
        best = Some(pair);
        level = pair.loss.size();
    }
    best
}

// A smallest loss that has the taken stations and j, if there is one, and else the witness, which has the taken ones.
fn lead(piece: Piece, taken: StationSet, witness: StationSet, j: usize, left: usize) -> StationSet
    requires { Trial piece.table.now piece.stations taken witness j left }
    ensures { Led piece.entry.table.now piece.entry.stations taken j left result }
{
    if witness.has(j) {
        return witness;
    }
    let rest = Piece {
        table: piece.table,
        stations: piece.stations.minus(taken),
    };
    match rest.around(j, left) {
        Some(pair) => pair.loss.join(taken),
        None => witness,
    }
}

// The first of the smallest weak sets. `loss` is one of them: stations are tried in ascending order, and one is taken when a
// smallest loss has it and those taken before. `left` is how many are still to be taken: `lead` asks for it at each station.
fn first_weak(piece: Piece, loss: StationSet) -> StationSet
    requires { SmallestWeak piece.table.now piece.stations loss }
    ensures { FirstWeak piece.entry.table.now piece.entry.stations loss result }
{
    let mut witness = loss;
    let mut taken = StationSet::empty();
    let mut left = loss.size();
    for j in piece.stations {
        if left == 0 {
            break;
        }
        witness = lead(piece, taken, witness, j, left);
        if witness.has(j) {
            taken = taken.with(j);
            left -= 1;
        }
    }
    taken
}

// Does the set hold at k? If not, it has k stations or fewer, or its weak set is the smallest and first.
pub fn verdict(piece: Piece, k: usize) -> Answer<StationSet>
    ensures { Answers (linked piece.entry.table.now) 256 k (members piece.entry.stations) (reply result) }
{
    if piece.stations.size() <= k {
        return Answer::Few;
    }
    match smallest(piece, k) {
        Some(pair) => Answer::Weak(first_weak(piece, pair.loss)),
        None => Answer::Holds,
    }
}

// The verdict alone, by one search: where the set is weak, it comes with some loss of fewer than k that parts it, not with the smallest and first.
pub fn judge(piece: Piece, k: usize) -> Answer<StationSet>
    ensures { JudgedOf (linked piece.entry.table.now) k (members piece.entry.stations) result }
{
    let size = piece.stations.size();
    if size <= k {
        return Answer::Few;
    }
    match piece.weak(k) {
        Some(pair) => Answer::Weak(pair.loss),
        None => Answer::Holds,
    }
}
