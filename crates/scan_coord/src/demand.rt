ghost use Rattle.std.specs.Prelude.{◌≡◌, length, IfOk};
ghost use Rattle.seq_vector.specs.Vectors.{join};
ghost use Rattle.scan_coord.specs.Demands.{base_of, wanted_of, IsSized};

use crate::session::Session;
use n1ql_value::Memory;
use seq_vector::Vector;
use seq_vector::laws::join_is_least;
use std::alloc::Global;

/// The consistency of a request: what it asks to see beside what its client has seen (the levels `not_bounded`, `at_plus`
/// and `request_plus` of the SQL++ reference).
#[derive(Drop)]
pub enum Demand {
    /// Nothing more.
    NotBounded,
    /// A vector that the request gives.
    AtPlus(Vector),
    /// The highest numbers that its client wrote.
    Mine,
    /// All that was accepted before the request began.
    RequestPlus,
}

impl Demand {
    /// The same demand.
    ///
    /// # Errors
    ///
    /// `Memory` where it ran out.
    pub fn copy(&self, alloc: Global) -> Result<Demand, Memory>
        ensures { IfOk result (λ copy. copy ≡ self.now) }
    {
        match self {
            Demand::NotBounded => Ok(Demand::NotBounded),
            Demand::AtPlus(at) => Ok(Demand::AtPlus(at.copy(alloc)?)),
            Demand::Mine => Ok(Demand::Mine),
            Demand::RequestPlus => Ok(Demand::RequestPlus),
        }
    }
}

/// The vector that a publication has to cover to answer a request: what the client has seen, and what the request asks for
/// beside it. `high` has the newest numbers at the request's start.
///
/// # Errors
///
/// `Memory` where it ran out.
pub fn wanted(
    alloc: Global,
    demand: &Demand,
    session: &Session,
    high: &Vector,
) -> Result<Vector, Memory>
    requires demand { IsSized (length high.now) demand.now }
    requires seen { length session.now.seen ≡ length high.now }
    requires wrote { length session.now.wrote ≡ length high.now }
    ensures want { IfOk result (λ want. want ≡ wanted_of demand.now session.now high.now) }
    ensures size { IfOk result (λ want. length want ≡ length high.now) }
{
    join_is_least();
    let mut want = session.seen.copy(alloc)?;
    join_base(&mut want, demand, session, high);
    Ok(want)
}

/// Raises a vector to what a request asks for by itself.
fn join_base(want: &mut Vector, demand: &Demand, session: &Session, high: &Vector)
    requires demand { IsSized (length high.now) demand.now }
    requires size { length want.old ≡ length high.now }
    requires wrote { length session.now.wrote ≡ length high.now }
    ensures joined { want.new ≡ join want.old (base_of demand.now session.now high.now) }
    ensures size { length want.new ≡ length want.old }
{
    join_is_least();
    match demand {
        Demand::NotBounded => (),
        Demand::AtPlus(at) => want.join_in(at),
        Demand::Mine => want.join_in(&session.wrote),
        Demand::RequestPlus => want.join_in(high),
    }
}
