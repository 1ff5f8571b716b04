ghost use Rattle.std.specs.Prelude.{IfOk};
ghost use Rattle.gsi_hub_tests.specs.Pairs.{IsPair};

use crate::history::history_text;
use crate::scripts::{Line, script};
use crate::steps::{Step, make};
use gsi_hub::Hub;
use n1ql_value::Memory;
use std::alloc::Global;
use std::process::Abort;
use std::sync::Arc;
use std::test::Fail;

fn may_be_sent<T: Send>() {}

#[test]
fn a_hub_may_go_to_another_thread(_rt: HostRuntime) {
    may_be_sent::<Hub>();
}

/// The hub of what two clients do.
fn hub(alloc: Global, first: &[Line<'_>], second: &[Line<'_>]) -> Result<Hub, Memory>
    ensures { IfOk result (λ hub. IsPair hub.script) }
{
    let script = Arc::new(alloc, script(alloc, first, second)?)?;
    let hub = Hub::new(alloc, script)?;
    Ok(hub)
}

/// That each call comes to the text beside it, and that the events are these, a line each.
fn each_comes_to(
    rt: &impl Abort,
    alloc: Global,
    mut hub: Hub,
    rows: &[(Step, &str)],
    events: &str,
) -> Result<(), Fail>
    requires { IsPair hub.script }
{
    for row in rows {
        let (call, want) = row;
        let found = make(alloc, &mut hub, *call)?;
        assert_eq!(rt; found.as_str(), *want, "{call:?}");
    }
    let found = history_text(alloc, &hub.into_events())?;
    assert_eq!(rt; found.as_str(), events);
    Ok(())
}

// The second client puts documents, asks and is refused, while the first one's index is built. Then it isn't covered, and then it is.
// The ids a and b are of different vBuckets.
#[test]
fn a_build_stays_open_while_another_client_acts(rt: HostRuntime) -> Result<(), Fail> {
    let alloc = rt.alloc();
    let hub = hub(
        alloc,
        &[
            Line::Put("a", 1),
            Line::Say("CREATE INDEX ix ON ks(x)"),
            Line::Scan("ix"),
        ],
        &[
            Line::Put("b", 2),
            Line::Scan("ix"),
            Line::Put("a", 3),
            Line::ScanMine("ix"),
        ],
    )?;
    let rows = [
        (Step::Take(0), "mutation 1"),
        (Step::Online(0), "not now"),
        (Step::Take(0), "building 0"),
        (Step::Take(0), "not now"),
        (Step::Online(0), "NotCovered { i: 0 }"),
        (Step::Take(1), "mutation 1"),
        (Step::Take(1), "Refused(8)"),
        (Step::Publish(0, 2), "Published"),
        (Step::Take(1), "mutation 2"),
        (Step::Online(0), "Online"),
        (Step::Take(1), "Started { index: 0 }"),
        (Step::Pick(1), "not yet: 0 at 1 below 2"),
        (Step::Take(0), "Started { index: 0 }"),
        (Step::Pick(0), "answer of 0"),
        (Step::Publish(0, 1), "Stale"),
        (Step::Publish(0, 2), "Published"),
        (Step::Publish(0, 2), "Stale"),
        (Step::Pick(1), "answer of 0"),
        (Step::Pick(1), "not now"),
        (Step::Take(1), "not now"),
    ];
    let events =
        "0.0 mutate 0 1\n0.1 define 0 false\n1.0 mutate 1 1\n1.1 refuse 8\npublish 0: 1 1\n1.2 mutate 0 2\n0.1 online 0\n1.3 start 0: 2 1\n0.2 start 0: 0 0\n0.2 answer: 1 1\npublish 0: 2 1\n1.3 answer: 2 1\n";
    each_comes_to(&rt, alloc, hub, &rows, events)
}

// The second client drops the index while the first one's request is open, and then another one while it is built.
#[test]
fn an_index_is_dropped_under_what_is_open(rt: HostRuntime) -> Result<(), Fail> {
    let alloc = rt.alloc();
    let hub = hub(
        alloc,
        &[
            Line::Say("CREATE INDEX ix ON ks(x)"),
            Line::ScanAll("ix"),
            Line::Scan("ix"),
            Line::Say("CREATE INDEX ix ON ks(x)"),
            Line::Say("CREATE INDEX"),
        ],
        &[
            Line::Delete("a"),
            Line::Say("DROP INDEX ix ON ks"),
            Line::Say("DROP INDEX ix ON ks"),
            Line::Say("DROP INDEX ix ON ks"),
        ],
    )?;
    let rows = [
        (Step::Take(0), "building 0"),
        (Step::Online(0), "Online"),
        (Step::Take(1), "mutation 1"),
        (Step::Take(0), "Started { index: 0 }"),
        (Step::Pick(0), "not yet: 0 at 0 below 1"),
        (Step::Take(1), "closed"),
        (Step::Take(1), "Refused(5)"),
        (Step::Publish(0, 1), "not now"),
        (Step::Pick(0), "Dropped"),
        (Step::Take(0), "Refused(5)"),
        (Step::Take(0), "building 1"),
        (Step::Publish(1, 1), "Published"),
        (Step::Take(1), "closed"),
        (Step::Online(0), "Dropped"),
        (Step::Take(0), "fault 12"),
    ];
    let events =
        "0.0 define 0 false\n0.0 online 0\n1.0 mutate 0 1\n0.1 start 0: 1 0\n1.1 drop 0\n1.2 refuse 5\n0.1 refuse 10\n0.2 refuse 5\n0.3 define 1 false\npublish 1: 1 0\n1.3 drop 1\n0.3 refuse 10\n0.4 refuse 1\n";
    each_comes_to(&rt, alloc, hub, &rows, events)
}

// Two deferred indexes are built by one client, the lesser one of which is dropped by the other.
#[test]
fn deferred_indexes_are_built_together(rt: HostRuntime) -> Result<(), Fail> {
    let alloc = rt.alloc();
    let hub = hub(
        alloc,
        &[Line::Put("a", 1), Line::Say("BUILD INDEX ON ks(iy, ix)")],
        &[
            Line::Say("CREATE INDEX ix ON ks(x) WITH {\"defer_build\": true}"),
            Line::Say("CREATE INDEX iy ON ks(x) WITH {\"defer_build\": true}"),
            Line::Say("DROP INDEX ix ON ks"),
            Line::Say("BUILD INDEX ON ks(iy)"),
        ],
    )?;
    let rows = [
        (Step::Take(0), "mutation 1"),
        (Step::Take(1), "closed"),
        (Step::Publish(0, 1), "not now"),
        (Step::Take(1), "closed"),
        (Step::Take(0), "building 1 0"),
        (Step::Online(0), "NotCovered { i: 0 }"),
        (Step::Publish(0, 1), "Published"),
        (Step::Online(0), "NotCovered { i: 1 }"),
        (Step::Publish(1, 1), "Published"),
        (Step::Take(1), "closed"),
        (Step::Online(0), "Online"),
        (Step::Take(1), "Refused(6)"),
    ];
    let events =
        "0.0 mutate 0 1\n1.0 define 0 true\n1.1 define 1 true\n0.1 build 1 0\npublish 0: 1 0\npublish 1: 1 0\n1.2 drop 0\n0.1 online 1\n1.3 refuse 6\n";
    each_comes_to(&rt, alloc, hub, &rows, events)
}
