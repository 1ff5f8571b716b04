//! What the catalog makes of lists of numbers. Nothing here takes memory.
ghost use Rattle.std.specs.Prelude.{◌≡◌, filter, is_some};
ghost use Rattle.std.specs.List.{AllByRecursion};
ghost use Rattle.n1ql_value.specs.declared.state.State.TheVariants.{Online};
ghost use Rattle.index_def.specs.LiveIndexes.{numbered, in_state, all_in_state};
ghost use Rattle.gsi_hub.specs.inner.Kept.{IsServed, is_being_built};

use index_ddl::Catalog;
use n1ql_value::State;
use scan_history::Numbers;

/// The numbers among these whose indexes are live.
pub(crate) fn keep_live(catalog: &Catalog, numbers: Numbers) -> Numbers
    ensures { result ≡ filter (λ i. is_some (numbered i catalog.now.live)) numbers }
{
    let mut numbers = numbers.into_vec();
    let mut at = 0;
    while at < numbers.len() {
        if is_live(catalog, numbers[at]) {
            at += 1;
        } else {
            numbers.remove(at);
        }
    }
    Numbers::from_vec(numbers)
}

/// Whether the index of a number is live.
fn is_live(catalog: &Catalog, number: u32) -> bool
    ensures { result ≡ is_some (numbered number catalog.now.live) }
{
    match catalog.numbered(number) {
        Some(_) => true,
        None => false,
    }
}

/// Puts the indexes of these numbers online, none of which is deferred.
pub(crate) fn go_online(catalog: &mut Catalog, numbers: &[u32])
    requires { AllByRecursion (λ i. IsServed (numbered i catalog.old.live)) numbers.now }
    ensures live { catalog.new.live ≡ all_in_state numbers.now Online catalog.old.live }
    ensures made { catalog.new.made ≡ catalog.old.made }
{
    for number in numbers {
        put_online(catalog, *number);
    }
}

/// Puts the index of a number online, where it isn't yet.
fn put_online(catalog: &mut Catalog, number: u32)
    requires { IsServed (numbered number catalog.old.live) }
    ensures live { catalog.new.live ≡ in_state number Online catalog.old.live }
    ensures made { catalog.new.made ≡ catalog.old.made }
{
    if is_building(catalog.state(number)) {
        catalog.go_online(number);
    }
}

/// Whether an index is being built.
fn is_building(state: Option<State>) -> bool
    ensures { result ≡ is_being_built state }
{
    match state {
        Some(State::Building) => true,
        _ => false,
    }
}
