ghost use Rattle.std.specs.Prelude.{◌≡◌, length, IfOk};
ghost use Rattle.scan_coord.specs.Demands.{IsSized};

use crate::{Decision, Demand, Session, decide, wanted};
use n1ql_value::Memory;
use seq_vector::{Vector, zero};
use std::alloc::Global;
use std::test::Fail;

/// A vector of three vBuckets.
fn vector(alloc: Global, numbers: [u64; 3]) -> Result<Vector, Memory>
    ensures { IfOk result (λ v. length v ≡ 3) }
{
    let mut v = zero(alloc, 3)?;
    v.set(0, numbers[0]);
    v.set(1, numbers[1]);
    v.set(2, numbers[2]);
    Ok(v)
}

/// The numbers of a vector of three vBuckets.
fn numbers(v: &Vector) -> [u64; 3]
    requires { length v.now ≡ 3 }
{
    [v.get(0), v.get(1), v.get(2)]
}

/// What a request with this demand wants of a client that has seen and written something.
fn wants(alloc: Global, demand: &Demand) -> Result<[u64; 3], Memory>
    requires { IsSized 3 demand.now }
{
    let session = Session {
        seen: vector(alloc, [5, 0, 1])?,
        wrote: vector(alloc, [2, 3, 0])?,
    };
    let high = vector(alloc, [6, 4, 2])?;
    let demand = demand.copy(alloc)?;
    let want = wanted(alloc, &demand, &session, &high)?;
    Ok(numbers(&want))
}

#[test]
fn a_request_wants_what_was_seen_and_its_base(rt: HostRuntime) -> Result<(), Fail> {
    let alloc = rt.alloc();
    let at = Demand::AtPlus(vector(alloc, [0, 0, 9])?);
    assert_eq!(rt; wants(alloc, &Demand::NotBounded)?, [5, 0, 1]);
    assert_eq!(rt; wants(alloc, &at)?, [5, 0, 9]);
    assert_eq!(rt; wants(alloc, &Demand::Mine)?, [5, 3, 1]);
    assert_eq!(rt; wants(alloc, &Demand::RequestPlus)?, [6, 4, 2]);
    Ok(())
}

#[test]
fn the_least_vbucket_that_is_short_is_named(rt: HostRuntime) -> Result<(), Fail> {
    let alloc = rt.alloc();
    let newest = vector(alloc, [5, 1, 1])?;
    assert_eq!(rt;
        decide(&vector(alloc, [5, 0, 1])?, &newest),
        Decision::Covered
    );
    assert_eq!(rt;
        decide(&vector(alloc, [0, 3, 2])?, &newest),
        Decision::NotYet {
            vb: 1,
            want: 3,
            have: 1
        }
    );
    Ok(())
}
