//! Which statements an index covers: each place of a statement in which an expression stands, and partial indexes.

use crate::plans::check_plans;
use std::test::Fail;

/// Statements on an index of a and b.
const OVER_KEYS: [(&str, &str); 24] = [
    (
        "SELECT a, b, a + b AS c FROM ks WHERE a = 1",
        "0 covered [1,1][,]",
    ),
    ("SELECT a, c FROM ks WHERE a = 1", "0 [1,1][,]"),
    ("SELECT a.x, b[0] FROM ks WHERE a = 1", "0 covered [1,1][,]"),
    ("SELECT RAW a FROM ks WHERE a = 1", "0 covered [1,1][,]"),
    ("SELECT RAW ks FROM ks WHERE a = 1", "0 [1,1][,]"),
    (
        "SELECT RAW {\"x\": [a, META().id]} FROM ks WHERE a = 1",
        "0 covered [1,1][,]",
    ),
    ("SELECT RAW META() FROM ks WHERE a = 1", "0 [1,1][,]"),
    ("SELECT RAW META().cas FROM ks WHERE a = 1", "0 [1,1][,]"),
    ("SELECT * FROM ks WHERE a = 1", "0 [1,1][,]"),
    ("SELECT ks.* FROM ks WHERE a = 1", "0 [1,1][,]"),
    ("SELECT a.* FROM ks WHERE a = 1", "0 [1,1][,]"),
    (
        "SELECT u.* FROM ks UNNEST b AS u WHERE a = 1",
        "0 covered [1,1][,]",
    ),
    (
        "SELECT u.x, a FROM ks UNNEST b AS u WHERE a = 1 AND u.x > 2",
        "0 covered [1,1][,]",
    ),
    ("SELECT a FROM ks UNNEST c AS u WHERE a = 1", "0 [1,1][,]"),
    (
        "SELECT a FROM ks UNNEST b AS u UNNEST u.x AS v WHERE a = 1",
        "0 covered [1,1][,]",
    ),
    ("SELECT a FROM ks WHERE a = 1 AND c = 2", "0 [1,1][,]"),
    (
        "SELECT a FROM ks WHERE a = 1 AND (b = 1 OR b = 2)",
        "0 covered [1,1][,]",
    ),
    (
        "SELECT a FROM ks WHERE a = 1 ORDER BY b DESC, META().id",
        "0 covered [1,1][,]",
    ),
    ("SELECT a FROM ks WHERE a = 1 ORDER BY c", "0 [1,1][,]"),
    (
        "SELECT a AS c FROM ks WHERE a = 1 ORDER BY c",
        "0 covered [1,1][,]",
    ),
    (
        "SELECT a AS c FROM ks WHERE a = 1 ORDER BY (c)",
        "0 [1,1][,]",
    ),
    (
        "SELECT b, COUNT(*) AS n, SUM(a) AS s FROM ks WHERE a = 1 GROUP BY b HAVING MAX(a) > 0",
        "0 covered [1,1][,]",
    ),
    ("SELECT b FROM ks WHERE a = 1 GROUP BY b, c", "0 [1,1][,]"),
    (
        "SELECT b FROM ks WHERE a = 1 GROUP BY b HAVING COUNT(c) > 0",
        "0 [1,1][,]",
    ),
];

#[test]
fn an_index_covers_what_its_keys_tell(rt: HostRuntime) -> Result<(), Fail> {
    check_plans(
        &rt,
        rt.alloc(),
        &["CREATE INDEX iab ON ks(a, b)"],
        &OVER_KEYS,
    )
}

/// Statements on a partial index.
const OVER_A_FILTER: [(&str, &str); 8] = [
    ("SELECT a FROM ks WHERE a = 1", "no index"),
    ("SELECT a FROM ks WHERE a = 1 AND c = 2", "no index"),
    (
        "SELECT a FROM ks WHERE a = 1 AND c = 2 AND d IS NULL",
        "0 covered [1,1]",
    ),
    (
        "SELECT a FROM ks WHERE d IS NULL AND (a > 1 AND c = 2)",
        "0 covered (1,)",
    ),
    (
        "SELECT a FROM ks WHERE a = 1 AND 2 = c AND d IS NULL",
        "no index",
    ),
    (
        "SELECT a FROM ks k WHERE k.a = 1 AND k.c = 2 AND k.d IS NULL",
        "0 covered [1,1]",
    ),
    (
        "SELECT c FROM ks WHERE a = 1 AND c = 2 AND d IS NULL",
        "0 [1,1]",
    ),
    (
        "SELECT a FROM ks WHERE a = 1 AND c = 2 AND d IS NULL AND e",
        "0 [1,1]",
    ),
];

#[test]
fn a_partial_index_wants_its_filter(rt: HostRuntime) -> Result<(), Fail> {
    check_plans(
        &rt,
        rt.alloc(),
        &["CREATE INDEX ip ON ks(a) WHERE c = 2 AND d IS NULL"],
        &OVER_A_FILTER,
    )
}
