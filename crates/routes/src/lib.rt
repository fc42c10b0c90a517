// The routes question: how many separate routes lead between two stations.
#![tactic(auto)]

ghost use Rattle.std.specs.Prelude.{◌≡◌, ◌≢◌, ◌<◌};
ghost use Rattle.stations.specs.Sets.{one_if};
ghost use Rattle.routes.specs.Reply.{joined, count, Replies};
ghost use Rattle.routes.specs.Steps.{Answered};

use card::{Mesh, Refusal};

// How two stations stand to each other: so many separate routes, or a link of their own.
#[derive(Clone, Copy)]
pub enum Answer {
    Counted(usize),
    Joined,
}

// The answer about two different stations of a mesh. Fewer than 256 other stations leave fewer than 256 routes, so the limit is never met.
fn ask(mesh: Mesh, a: usize, b: usize) -> Answer
    requires a_in { a < mesh.n }
    requires b_in { b < mesh.n }
    requires differ { a ≢ b }
    ensures { Answered mesh.entry.n mesh.entry.table.now a b result }
{
    if mesh.links(a).has(b) {
        return Answer::Joined;
    }
    let fewer = flow::between(mesh.table, mesh.stations(), a, b, 256);
    let most = fewer.map_or(256, |cut| cut.chains);
    Answer::Counted(most)
}

// The routes question. Refusals in the order 2, 3, 4, 7.
pub fn routes(n: usize, table: &[u64], a: usize, b: usize) -> Result<Answer, Refusal>
    ensures { Replies n table.now a b result }
{
    let mesh = Mesh::accept(n, table)?;
    card::test_pair(n, a, b)?;
    Ok(ask(mesh, a, b))
}

// 1 for the reply of a linked pair, 0 for every other reply.
pub fn joined_of(reply: &Result<Answer, Refusal>) -> u64
    ensures { result ≡ one_if (joined reply.now) }
{
    match reply {
        Ok(Answer::Joined) => 1,
        _ => 0,
    }
}

// The number of separate routes in a reply, 0 for a linked pair and for a refusal.
pub fn count_of(reply: &Result<Answer, Refusal>) -> u64
    ensures { result ≡ count reply.now }
{
    match reply {
        Ok(Answer::Counted(c)) => *c as u64,
        _ => 0,
    }
}
