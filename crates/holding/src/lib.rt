// The holding question: does a set hold at a level, and where it does not, which loss parts it?
#![tactic(auto)]

ghost use Rattle.std.specs.Prelude.{◌≡◌, ℕ, IfOk};
ghost use Rattle.stations.specs.Words.{words, row, members};
ghost use Rattle.card.specs.Card.{number_of, FirstFailing};
ghost use Rattle.holding.specs.Reply.{verdict, weak_set, order, Replies, Judges};
ghost use Rattle.holding.specs.Steps.{alone};

use card::{Mesh, Refusal};
use pairs::Piece;
use stations::StationSet;
use verdicts::Answer;

// The tests of both questions, in the order 2, 3, 4, 1, 6, and the set that passes them. Its four words are read where they lie, so they may be a row of
// a list.
fn accept<'a>(n: usize, table: &'a [u64], k: usize, set: &[u64]) -> Result<Piece<'a>, Refusal>
    ensures refused { FirstFailing (order n table.now k set.now) (number_of result) }
    ensures same { IfOk result (λ p. (p.table ≡ table.entry) × (words p.stations ≡ row set.now 0)) }
{
    let mesh = Mesh::accept(n, table)?;
    card::test_level(k)?;
    card::test_set(n, set)?;
    Ok(Piece {
        table: mesh.table,
        stations: StationSet::of_row(set, 0),
    })
}

// The holding question. Refusals in the order 2, 3, 4, 1, 6.
pub fn holding(
    n: usize,
    table: &[u64],
    k: usize,
    set: &[u64],
) -> Result<Answer<StationSet>, Refusal>
    ensures { Replies n table.now k set.now result }
{
    let piece = accept(n, table, k, set)?;
    let told = verdicts::verdict(piece, k);
    Ok(told)
}

// A verdict without the loss that it names.
fn alone(told: Answer<StationSet>) -> Answer<()>
    ensures { result ≡ alone told }
{
    match told {
        Answer::Holds => Answer::Holds,
        Answer::Few => Answer::Few,
        Answer::Weak(_) => Answer::Weak(()),
    }
}

// The holding question for the verdict alone: one search. Refusals in the order 2, 3, 4, 1, 6.
pub fn judged(n: usize, table: &[u64], k: usize, set: &[u64]) -> Result<Answer<()>, Refusal>
    ensures { Judges n table.now k set.now result }
{
    let asked = accept(n, table, k, set)?;
    let brief = alone(verdicts::judge(asked, k));
    Ok(brief)
}

// The verdict of a reply in the numbers of the rules: 0 for HOLDS, 1 for FEW, 2 for WEAK, and 0 for a refusal.
pub fn verdict_of<W>(reply: &Result<Answer<W>, Refusal>) -> u64
    ensures { result ≡ verdict reply.now }
{
    match reply {
        Ok(Answer::Few) => 1,
        Ok(Answer::Weak(_)) => 2,
        _ => 0,
    }
}

// The weak set of a reply, the empty set where there is none.
pub fn weak_set_of(reply: &Result<Answer<StationSet>, Refusal>) -> StationSet
    ensures { (x : ℕ) → members result x ≡ weak_set reply.now x }
{
    match reply {
        Ok(Answer::Weak(s)) => *s,
        _ => StationSet::empty(),
    }
}
