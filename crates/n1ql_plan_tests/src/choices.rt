//! The choice among several indexes, and USE INDEX.

use crate::plans::check_plans;
use std::test::Fail;

/// Statements over several indexes.
const AMONG_SEVERAL: [(&str, &str); 15] = [
    // The one that covers goes first.
    ("SELECT a, c FROM ks WHERE a = 1", "2 covered [1,1][,]"),
    // Then the one with more keys that are bounded.
    (
        "SELECT a FROM ks WHERE a = 1 AND b = 2",
        "1 covered [1,1][2,2]",
    ),
    ("SELECT e FROM ks WHERE a = 1 AND b = 2", "1 [1,1][2,2]"),
    // Then the one that was created first.
    ("SELECT a FROM ks WHERE a = 1", "0 covered [1,1]"),
    ("SELECT e FROM ks WHERE a = 1", "0 [1,1]"),
    (
        "SELECT e FROM ks WHERE a = 1 AND b = 2 AND c = 3",
        "1 [1,1][2,2]",
    ),
    // A primary index qualifies for each statement.
    ("SELECT a FROM ks", "3 [,]"),
    ("SELECT META().id FROM ks", "3 covered [,]"),
    (
        "SELECT META().id FROM ks WHERE META().id > 'k' AND META().id < 'm'",
        "3 covered (\"k\",\"m\")",
    ),
    ("SELECT e FROM ks WHERE a != 1", "3 [,]"),
    // USE INDEX.
    (
        "SELECT a FROM ks USE INDEX (ia) WHERE a = 1 AND b = 2",
        "0 [1,1]",
    ),
    ("SELECT a FROM ks USE INDEX (ip) WHERE a = 1", "3 [,]"),
    ("SELECT a FROM ks USE INDEX (ia) WHERE b = 1", "no index"),
    ("SELECT a FROM ks USE INDEX (none) WHERE a = 1", "unknown"),
    (
        "SELECT a FROM ks USE INDEX (late) WHERE a = 1",
        "not online",
    ),
];

#[test]
fn one_index_of_several_goes_first(rt: HostRuntime) -> Result<(), Fail> {
    check_plans(
        &rt,
        rt.alloc(),
        &[
            "CREATE INDEX ia ON ks(a)",
            "CREATE INDEX iab ON ks(a, b)",
            "CREATE INDEX iac ON ks(a, c)",
            "CREATE PRIMARY INDEX ip ON ks",
            "CREATE INDEX late ON ks(a, b, c) WITH {\"defer_build\": true}",
        ],
        &AMONG_SEVERAL,
    )
}

/// Statements over an index with an array key, whose rows alone answer none.
const OVER_AN_ARRAY_KEY: [(&str, &str); 2] = [
    (
        "SELECT META().id FROM ks WHERE ANY v IN t SATISFIES v = 1 END",
        "no index",
    ),
    (
        "SELECT META().id FROM ks USE INDEX (it) WHERE ANY v IN t SATISFIES v = 1 END",
        "no index",
    ),
];

#[test]
fn an_array_key_answers_nothing_alone(rt: HostRuntime) -> Result<(), Fail> {
    check_plans(
        &rt,
        rt.alloc(),
        &["CREATE INDEX it ON ks(ALL ARRAY v FOR v IN t END)"],
        &OVER_AN_ARRAY_KEY,
    )
}

#[test]
fn without_indexes_there_is_no_plan(rt: HostRuntime) -> Result<(), Fail> {
    check_plans(
        &rt,
        rt.alloc(),
        &[],
        &[
            ("SELECT a FROM ks WHERE a = 1", "no index"),
            ("SELECT a FROM ks USE INDEX (ia)", "unknown"),
        ],
    )
}
