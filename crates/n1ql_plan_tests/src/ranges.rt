//! The spans of one index: each form of a bounding conjunct, several on one key, and those of later keys.

use crate::plans::check_plans;
use std::test::Fail;

/// Statements on an index of one key: what WHERE says of it, and the spans.
const ON_ONE_KEY: [(&str, &str); 67] = [
    // Each comparison, and its mirror.
    ("SELECT a FROM ks WHERE a = 1", "0 covered [1,1]"),
    ("SELECT a FROM ks WHERE 1 = a", "0 covered [1,1]"),
    ("SELECT a FROM ks WHERE a > 1", "0 covered (1,)"),
    ("SELECT a FROM ks WHERE 1 < a", "0 covered (1,)"),
    ("SELECT a FROM ks WHERE a >= 1", "0 covered [1,)"),
    ("SELECT a FROM ks WHERE 1 <= a", "0 covered [1,)"),
    ("SELECT a FROM ks WHERE a < 1", "0 covered (null,1)"),
    ("SELECT a FROM ks WHERE 1 > a", "0 covered (null,1)"),
    ("SELECT a FROM ks WHERE a <= 1", "0 covered (null,1]"),
    ("SELECT a FROM ks WHERE 1 >= a", "0 covered (null,1]"),
    // These bound nothing.
    ("SELECT a FROM ks WHERE a != 1", "no index"),
    ("SELECT a FROM ks WHERE a <> 1", "no index"),
    ("SELECT a FROM ks WHERE a", "no index"),
    ("SELECT a FROM ks WHERE NOT a", "no index"),
    ("SELECT a FROM ks WHERE a = b", "no index"),
    ("SELECT a FROM ks WHERE a + 0 = 1", "no index"),
    ("SELECT a FROM ks WHERE a = 1 OR a = 2", "no index"),
    ("SELECT a FROM ks WHERE NOT a = 1", "no index"),
    ("SELECT a FROM ks WHERE b = 1", "no index"),
    ("SELECT a FROM ks", "no index"),
    // Constants of every type, MISSING and NULL among them.
    ("SELECT a FROM ks WHERE a = MISSING", "0 covered"),
    ("SELECT a FROM ks WHERE MISSING = a", "0 covered"),
    ("SELECT a FROM ks WHERE a > MISSING", "0 covered"),
    ("SELECT a FROM ks WHERE a <= MISSING", "0 covered"),
    ("SELECT a FROM ks WHERE a = NULL", "0 covered"),
    ("SELECT a FROM ks WHERE a >= NULL", "0 covered"),
    ("SELECT a FROM ks WHERE NULL > a", "0 covered"),
    ("SELECT a FROM ks WHERE a = TRUE", "0 covered [true,true]"),
    ("SELECT a FROM ks WHERE a > 'x'", "0 covered (\"x\",)"),
    ("SELECT a FROM ks WHERE a < [1]", "0 covered (null,[1])"),
    (
        "SELECT a FROM ks WHERE a = {\"b\": 1}",
        "0 covered [{\"b\":1},{\"b\":1}]",
    ),
    ("SELECT a FROM ks WHERE a = 1 + 2 * 3", "0 covered [7,7]"),
    ("SELECT a FROM ks WHERE a = 1 % 0", "0 covered"),
    (
        "SELECT a FROM ks WHERE a = TOSTRING(7)",
        "0 covered [\"7\",\"7\"]",
    ),
    // BETWEEN.
    (
        "SELECT a FROM ks WHERE a BETWEEN 1 AND 3",
        "0 covered [1,3]",
    ),
    ("SELECT a FROM ks WHERE a BETWEEN 3 AND 1", "0 covered"),
    (
        "SELECT a FROM ks WHERE a BETWEEN 1 AND 1",
        "0 covered [1,1]",
    ),
    ("SELECT a FROM ks WHERE a BETWEEN NULL AND 3", "0 covered"),
    (
        "SELECT a FROM ks WHERE a BETWEEN 1 AND MISSING",
        "0 covered",
    ),
    (
        "SELECT a FROM ks WHERE a BETWEEN 1 AND 'x'",
        "0 covered [1,\"x\"]",
    ),
    ("SELECT a FROM ks WHERE a NOT BETWEEN 1 AND 3", "no index"),
    ("SELECT a FROM ks WHERE 2 BETWEEN a AND 3", "no index"),
    ("SELECT a FROM ks WHERE a BETWEEN 1 AND b", "no index"),
    // IN.
    (
        "SELECT a FROM ks WHERE a IN [2, 1]",
        "0 covered [1,1] [2,2]",
    ),
    (
        "SELECT a FROM ks WHERE a IN [1, 1, 2, 1]",
        "0 covered [1,1] [2,2]",
    ),
    (
        "SELECT a FROM ks WHERE a IN [NULL, 1, MISSING]",
        "0 covered [1,1]",
    ),
    ("SELECT a FROM ks WHERE a IN [NULL]", "0 covered"),
    ("SELECT a FROM ks WHERE a IN []", "0 covered"),
    ("SELECT a FROM ks WHERE a IN 1", "0 covered"),
    ("SELECT a FROM ks WHERE a IN NULL", "0 covered"),
    (
        "SELECT a FROM ks WHERE a IN ['x', 1, FALSE]",
        "0 covered [false,false] [1,1] [\"x\",\"x\"]",
    ),
    ("SELECT a FROM ks WHERE a NOT IN [1]", "no index"),
    ("SELECT a FROM ks WHERE 1 IN a", "no index"),
    ("SELECT a FROM ks WHERE a IN [b]", "no index"),
    // IS.
    ("SELECT a FROM ks WHERE a IS NULL", "0 covered [null,null]"),
    ("SELECT a FROM ks WHERE a IS NOT NULL", "0 covered (null,)"),
    ("SELECT a FROM ks WHERE a IS MISSING", "no index"),
    (
        "SELECT a FROM ks WHERE a IS NOT MISSING",
        "0 covered [null,)",
    ),
    ("SELECT a FROM ks WHERE a IS VALUED", "0 covered (null,)"),
    ("SELECT a FROM ks WHERE a IS NOT VALUED", "no index"),
    (
        "SELECT a FROM ks WHERE NOT (a IS NULL)",
        "0 covered (null,)",
    ),
    // Several on one key.
    ("SELECT a FROM ks WHERE a >= 1 AND a < 5", "0 covered [1,5)"),
    (
        "SELECT a FROM ks WHERE a > 1 AND a >= 1 AND a <= 5 AND a < 5",
        "0 covered (1,5)",
    ),
    ("SELECT a FROM ks WHERE a > 5 AND a < 1", "0 covered"),
    ("SELECT a FROM ks WHERE a > 1 AND a < 1", "0 covered"),
    (
        "SELECT a FROM ks WHERE a IN [1, 3, 5] AND a > 1 AND b = 2",
        "0 [3,3] [5,5]",
    ),
    (
        "SELECT a FROM ks WHERE a IS NOT NULL AND a < 5 AND a = 1 + 1",
        "0 covered [2,2]",
    ),
];

#[test]
fn conjuncts_bound_one_key(rt: HostRuntime) -> Result<(), Fail> {
    check_plans(&rt, rt.alloc(), &["CREATE INDEX ia ON ks(a)"], &ON_ONE_KEY)
}

/// Statements on an index of three keys.
const ON_THREE_KEYS: [(&str, &str); 8] = [
    ("SELECT a FROM ks WHERE a = 1", "0 covered [1,1][,][,]"),
    ("SELECT a FROM ks WHERE b = 1", "no index"),
    (
        "SELECT a FROM ks WHERE a = 1 AND c > 2",
        "0 covered [1,1][,](2,)",
    ),
    (
        "SELECT a FROM ks WHERE a IN [1, 2] AND b IN [3, 5] AND c = 7",
        "0 covered [1,1][3,5][7,7] [2,2][3,5][7,7]",
    ),
    (
        "SELECT a FROM ks WHERE a = 1 AND b IN [5, 3, 4] AND b != 4",
        "0 covered [1,1][3,5][,]",
    ),
    (
        "SELECT a FROM ks WHERE a = 1 AND b > 5 AND b < 2",
        "0 covered",
    ),
    ("SELECT a FROM ks WHERE a = 1 AND b = NULL", "0 covered"),
    (
        "SELECT a FROM ks WHERE c = 3 AND b >= 2 AND a <= 1 AND b <= 2",
        "0 covered (null,1][2,2][3,3]",
    ),
];

#[test]
fn later_keys_have_the_hull_of_their_ranges(rt: HostRuntime) -> Result<(), Fail> {
    check_plans(
        &rt,
        rt.alloc(),
        &["CREATE INDEX iabc ON ks(a, b, c)"],
        &ON_THREE_KEYS,
    )
}

/// Statements on an index of META().id, and on one of an expression.
const ON_EXPRESSIONS: [(&str, &str); 7] = [
    (
        "SELECT META().id FROM ks WHERE META().id = 'k'",
        "0 covered [\"k\",\"k\"]",
    ),
    (
        "SELECT META(ks).id FROM ks WHERE META(ks).id > 'k'",
        "0 covered (\"k\",)",
    ),
    (
        "SELECT RAW ABS(n.x) FROM ks WHERE ABS(n.x) >= 2",
        "1 covered [2,)",
    ),
    ("SELECT RAW n.x FROM ks WHERE ABS(n.x) >= 2", "1 [2,)"),
    (
        "SELECT RAW TOSTRING(ABS(k.n.x)) FROM ks k WHERE 9 > ABS(k.n.x)",
        "1 covered (null,9)",
    ),
    ("SELECT RAW 1 FROM ks WHERE ABS(n.y) >= 2", "no index"),
    (
        "SELECT RAW 1 FROM ks UNNEST n AS n WHERE ABS(n.x) >= 2",
        "no index",
    ),
];

#[test]
fn keys_are_expressions(rt: HostRuntime) -> Result<(), Fail> {
    check_plans(
        &rt,
        rt.alloc(),
        &[
            "CREATE INDEX im ON ks(META().id)",
            "CREATE INDEX il ON ks(ABS(n.x))",
        ],
        &ON_EXPRESSIONS,
    )
}
