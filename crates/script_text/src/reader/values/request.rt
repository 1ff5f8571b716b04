ghost use Rattle.std.specs.Prelude.{◌≡◌, IfOk};
ghost use Rattle.script_text.specs.Requests.{mine_or_vector, demanded, ask_of};
ghost use Rattle.script_text.specs.inner.Lines.{IsVBucketCount};

use crate::reader::format::member_kind::is_mine;
use crate::reader::format::name::Name;
use crate::reader::values::full_vector::vector_of_value;
use crate::reader::values::members::{flag_at, text_at, value_at};
use n1ql_value::{Memory, Pairs, Value};
use scan_coord::Demand;
use scan_history::Ask;
use std::alloc::Global;

/// What a request asks of its answer, among so many vBuckets.
pub(crate) fn ask_of(alloc: Global, vbuckets: u32, members: &Pairs) -> Result<Ask, Memory>
    requires { IsVBucketCount vbuckets }
    ensures { IfOk result (λ ask. ask ≡ ask_of vbuckets members.now) }
{
    let consistency = text_at(members, Name::Consistency, "not_bounded");
    Ok(Ask {
        demand: demanded(alloc, vbuckets, consistency, members)?,
        wait: flag_at(members, Name::Wait, true),
    })
}

/// What the word for the consistency demands.
fn demanded(
    alloc: Global,
    vbuckets: u32,
    consistency: &str,
    members: &Pairs,
) -> Result<Demand, Memory>
    requires { IsVBucketCount vbuckets }
    ensures { IfOk result (λ demand. demand ≡ demanded vbuckets consistency.now members.now) }
{
    if consistency == "at_plus" {
        match value_at(members, Name::At) {
            Some(at) => mine_or_vector(alloc, vbuckets, at),
            None => Ok(Demand::NotBounded),
        }
    } else if consistency == "request_plus" {
        Ok(Demand::RequestPlus)
    } else {
        Ok(Demand::NotBounded)
    }
}

fn mine_or_vector(alloc: Global, vbuckets: u32, at: &Value) -> Result<Demand, Memory>
    requires { IsVBucketCount vbuckets }
    ensures { IfOk result (λ demand. demand ≡ mine_or_vector vbuckets at.now) }
{
    if is_mine(at) {
        Ok(Demand::Mine)
    } else {
        Ok(Demand::AtPlus(vector_of_value(alloc, vbuckets, at)?))
    }
}
