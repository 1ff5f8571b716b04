use crate::tests::trees::{show, show_part};
use n1ql_ast::{Expr, Order, Select, Term, Unnest};
use n1ql_parse::{ParseFault, select};
use n1ql_value::Text;
use std::alloc::{AllocError, Global};
use std::fmt::Write;
use std::process::Abort;
use std::test::Fail;

/// Texts, and what their SELECTs are.
const SELECTS: [(&str, &str); 30] = [
    ("SELECT * FROM ks", "all * from ks as ks"),
    (
        "select distinct a from ks",
        "distinct term doc.a own a from ks as ks",
    ),
    ("SELECT RAW a FROM ks", "all raw doc.a from ks as ks"),
    (
        "SELECT DISTINCT RAW COUNT(*) FROM ks",
        "distinct raw (CountAll) from ks as ks",
    ),
    (
        "SELECT a, b.c, d AS e, f g FROM ks",
        "all term doc.a own a term doc.b.c own c term doc.d given e term doc.f given g from ks as ks",
    ),
    (
        "SELECT (a), a.b, (a).b, a.`b c`, (a.b) FROM ks",
        "all term doc.a term doc.a.b own b term doc.a.b own b term doc.a.b c own b c term doc.a.b from ks as ks",
    ),
    (
        "SELECT a[0], a.b[0], ABS(a), ABS(a).b, META().id FROM ks",
        "all term (At doc.a 0) term (At doc.a.b 0) term (Abs doc.a) term (Abs doc.a).b own b term meta true.id own id from ks as ks",
    ),
    (
        "SELECT a + b.c, -a, NOT a, 1 n, 'a' FROM ks",
        "all term (Add doc.a doc.b.c) term (Neg doc.a) term (Not doc.a) term 1 given n term 'a' from ks as ks",
    ),
    (
        "SELECT COUNT(*), SUM(a) + 1 AS s, COUNT(b) FROM ks",
        "all term (CountAll) term (Add (Sum doc.a) 1) given s term (Count doc.b) from ks as ks",
    ),
    (
        "SELECT *, k.*, u.*, `a b`.* FROM ks AS k UNNEST k.t u",
        "all * spread k spread u spread a b from ks as k unnest doc.t as u",
    ),
    (
        "SELECT k, ks, a FROM ks k",
        "all term doc own k term doc.ks own ks term doc.a own a from ks as k",
    ),
    (
        "SELECT ks, k FROM ks AS `k`",
        "all term doc.ks own ks term doc own k from ks as k",
    ),
    (
        "SELECT count, `count`, count.x FROM ks",
        "all term doc.count own count term doc.count own count term doc.count.x own x from ks as ks",
    ),
    (
        "SELECT a FROM ks USE INDEX (ix)",
        "all term doc.a own a from ks as ks use ix",
    ),
    (
        "SELECT a FROM ks k USE INDEX (`i x` USING GSI) WHERE a",
        "all term doc.a own a from ks as k use i x where doc.a",
    ),
    (
        "SELECT v, w FROM ks UNNEST v AS v LEFT UNNEST v.t w UNNEST w AS v",
        "all term $v own v term $w own w from ks as ks unnest doc.v as v left unnest $v.t as w unnest $w as v",
    ),
    (
        "SELECT k FROM ks AS k UNNEST k.t AS k WHERE k.x = META(k).id",
        "all term $k own k from ks as k unnest doc.t as k where (Eq $k.x meta true.id)",
    ),
    (
        "SELECT a FROM ks WHERE a > 1 AND b < 2",
        "all term doc.a own a from ks as ks where (And (Gt doc.a 1) (Lt doc.b 2))",
    ),
    (
        "SELECT a FROM ks UNNEST t v WHERE ANY v IN v SATISFIES v = 1 END",
        "all term doc.a own a from ks as ks unnest doc.t as v where (Any v $v (Eq $v 1))",
    ),
    (
        "SELECT a FROM ks GROUP BY a",
        "all term doc.a own a from ks as ks group doc.a",
    ),
    (
        "SELECT a, MIN(b) AS m FROM ks WHERE c GROUP BY a, b + 1 HAVING MAX(b) > 1 AND a",
        "all term doc.a own a term (Min doc.b) given m from ks as ks where doc.c group doc.a group (Add doc.b 1) having (And (Gt (Max doc.b) 1) doc.a)",
    ),
    (
        "SELECT a FROM ks ORDER BY a",
        "all term doc.a own a from ks as ks order doc.a alone a",
    ),
    (
        "SELECT a AS b FROM ks ORDER BY b DESC, (b), a.b ASC, b + 1, `b`",
        "all term doc.a given b from ks as ks order doc.b desc alone b order doc.b order doc.a.b order (Add doc.b 1) order doc.b alone b",
    ),
    (
        "SELECT a FROM ks ORDER BY COUNT(*) DESC, ARRAY_AGG(a)",
        "all term doc.a own a from ks as ks order (CountAll) desc order (ArrayAgg doc.a)",
    ),
    (
        "SELECT a FROM ks LIMIT 0",
        "all term doc.a own a from ks as ks limit 0",
    ),
    (
        "SELECT a FROM ks LIMIT 9223372036854775807 OFFSET 9223372036854775807",
        "all term doc.a own a from ks as ks limit 9223372036854775807 offset 9223372036854775807",
    ),
    (
        "SELECT a FROM ks OFFSET 3",
        "all term doc.a own a from ks as ks offset 3",
    ),
    (
        "SELECT a FROM ks ORDER BY a LIMIT 2 OFFSET 1",
        "all term doc.a own a from ks as ks order doc.a alone a limit 2 offset 1",
    ),
    (
        "SELECT CASE WHEN COUNT(*) > 1 THEN [SUM(a)] ELSE {\"b\": MIN(a)} END FROM ks",
        "all term (Case (Gt (CountAll) 1) (List (Sum doc.a)) else (Build b:(Min doc.a))) from ks as ks",
    ),
    (
        "SELECT ARRAY COUNT(v) FOR v IN a END FROM ks GROUP BY b",
        "all term (Array v (Count $v) doc.a) from ks as ks group doc.b",
    ),
];

/// Texts, and the places of their faults.
const FAULTS: [(&str, usize); 65] = [
    ("SELECT", 6),
    ("SELECT FROM ks", 7),
    ("SELECT a", 8),
    ("SELECT a FROM", 13),
    ("SELECT a FROM 1", 14),
    ("SELECT a FROM ks.b", 16),
    ("SELECT ALL a FROM ks", 7),
    ("SELECT a DISTINCT FROM ks", 9),
    ("SELECT DISTINCT DISTINCT a FROM ks", 16),
    ("SELECT RAW FROM ks", 11),
    ("SELECT RAW * FROM ks", 11),
    ("SELECT RAW a, b FROM ks", 12),
    ("SELECT RAW a AS b FROM ks", 13),
    ("SELECT * a FROM ks", 9),
    ("SELECT *, FROM ks", 10),
    ("SELECT a.*.b FROM ks", 10),
    ("SELECT (a).* FROM ks", 11),
    ("SELECT a.b.* FROM ks", 11),
    ("SELECT a.* b FROM ks", 11),
    ("SELECT 1.* FROM ks", 9),
    ("SELECT a AS FROM ks", 12),
    ("SELECT a AS 'b' FROM ks", 12),
    ("SELECT a b c FROM ks", 11),
    ("SELECT a FROM ks k l", 19),
    ("SELECT a FROM ks AS USE", 20),
    ("SELECT a FROM ks USE (ix)", 21),
    ("SELECT a FROM ks USE INDEX ix", 27),
    ("SELECT a FROM ks USE INDEX ()", 28),
    ("SELECT a FROM ks USE INDEX (ix, iy)", 30),
    ("SELECT a FROM ks USE INDEX (ix USING)", 36),
    ("SELECT a FROM ks USE INDEX (ix) k", 32),
    ("SELECT a FROM ks UNNEST t v USE INDEX (ix)", 28),
    ("SELECT a FROM ks UNNEST t", 25),
    ("SELECT a FROM ks UNNEST t AS", 28),
    ("SELECT a FROM ks UNNEST SUM(t) v", 27),
    ("SELECT a FROM ks LEFT t v", 22),
    ("SELECT a FROM ks LEFT LEFT UNNEST t v", 22),
    ("SELECT a FROM ks WHERE", 22),
    ("SELECT a FROM ks WHERE COUNT(*) > 1", 28),
    ("SELECT a FROM ks WHERE SUM(a) > 1", 26),
    ("SELECT SUM(COUNT(*)) FROM ks", 16),
    ("SELECT SUM(MIN(a)) FROM ks", 14),
    ("SELECT SUM(*) FROM ks", 11),
    ("SELECT COUNT() FROM ks", 13),
    ("SELECT COUNT(a, b) FROM ks", 14),
    ("SELECT a FROM ks WHERE a UNNEST t v", 25),
    ("SELECT a FROM ks GROUP a", 23),
    ("SELECT a FROM ks GROUP BY", 25),
    ("SELECT a FROM ks GROUP BY MAX(a)", 29),
    ("SELECT a FROM ks HAVING a", 17),
    ("SELECT a FROM ks GROUP BY a WHERE b", 28),
    ("SELECT a FROM ks GROUP BY a HAVING", 34),
    ("SELECT a FROM ks ORDER a", 23),
    ("SELECT a FROM ks ORDER BY a ASC DESC", 32),
    ("SELECT a FROM ks ORDER BY a b", 28),
    ("SELECT a FROM ks ORDER BY a,", 28),
    ("SELECT a FROM ks LIMIT", 22),
    ("SELECT a FROM ks LIMIT -1", 23),
    ("SELECT a FROM ks LIMIT 9223372036854775808", 23),
    ("SELECT a FROM ks OFFSET 9223372036854775808", 24),
    ("SELECT a FROM ks LIMIT 1 + 1", 25),
    ("SELECT a FROM ks OFFSET 1 LIMIT 1", 26),
    ("SELECT a FROM ks LIMIT 1 ORDER BY a", 25),
    ("SELECT a FROM ks;", 16),
    ("SELECT a FROM ks -", 17),
];

/// The tokens of a long SELECT, and whether what ends with each is a SELECT.
const FRONTS: [(&str, bool); 87] = [
    ("SELECT", false),
    ("DISTINCT", false),
    ("a", false),
    (",", false),
    ("COUNT", false),
    ("(", false),
    ("*", false),
    (")", false),
    ("AS", false),
    ("b", false),
    (",", false),
    ("c", false),
    (".", false),
    ("*", false),
    (",", false),
    ("d", false),
    ("[", false),
    ("0", false),
    ("]", false),
    ("e", false),
    ("FROM", false),
    ("ks", true),
    ("AS", false),
    ("k", true),
    ("USE", false),
    ("INDEX", false),
    ("(", false),
    ("ix", false),
    ("USING", false),
    ("GSI", false),
    (")", true),
    ("LEFT", false),
    ("UNNEST", false),
    ("k", false),
    (".", false),
    ("t", false),
    ("AS", false),
    ("u", true),
    ("UNNEST", false),
    ("[", false),
    ("1", false),
    (",", false),
    ("u", false),
    ("]", false),
    ("v", true),
    ("WHERE", false),
    ("a", true),
    (">", false),
    ("1", true),
    ("AND", false),
    ("NOT", false),
    ("u", true),
    (".", false),
    ("x", true),
    ("IN", false),
    ("[", false),
    ("2", false),
    ("]", true),
    ("GROUP", false),
    ("BY", false),
    ("a", true),
    (",", false),
    ("u", true),
    (".", false),
    ("y", true),
    ("HAVING", false),
    ("SUM", true),
    ("(", false),
    ("v", false),
    (")", true),
    (">", false),
    ("1", true),
    ("ORDER", false),
    ("BY", false),
    ("b", true),
    ("DESC", true),
    (",", false),
    ("(", false),
    ("a", false),
    (")", true),
    ("ASC", true),
    (",", false),
    ("c", true),
    ("LIMIT", false),
    ("5", true),
    ("OFFSET", false),
    ("2", true),
];

fn show_name(out: &mut String, word: &str, name: &Option<Text>) -> Result<(), AllocError> {
    match name {
        Some(name) => write!(out, " {word} {}", name.as_str()),
        None => Ok(()),
    }
}

fn show_term(out: &mut String, term: &Term<Expr>) -> Result<(), AllocError> {
    match term {
        Term::All => out.push_str(" *"),
        Term::Spread(name) => write!(out, " spread {}", name.as_str()),
        Term::One { value, name, given } => {
            out.push_str(" term ")?;
            show(out, value)?;
            show_name(out, if *given { "given" } else { "own" }, name)
        }
    }
}

fn show_unnest(out: &mut String, unnest: &Unnest<Expr>) -> Result<(), AllocError> {
    out.push_str(if unnest.left {
        " left unnest "
    } else {
        " unnest "
    })?;
    show(out, &unnest.over)?;
    write!(out, " as {}", unnest.name.as_str())
}

fn show_order(out: &mut String, order: &Order<Expr>) -> Result<(), AllocError> {
    out.push_str(" order ")?;
    show(out, &order.key)?;
    out.push_str(if order.desc { " desc" } else { "" })?;
    show_name(out, "alone", &order.alone)
}

fn show_result(out: &mut String, select: &Select) -> Result<(), AllocError> {
    out.push_str(if select.distinct { "distinct" } else { "all" })?;
    show_part(out, " raw ", &select.raw)?;
    for term in select.terms.as_slice() {
        show_term(out, term)?;
    }
    Ok(())
}

fn show_source(out: &mut String, select: &Select) -> Result<(), AllocError> {
    write!(
        out,
        " from {} as {}",
        select.keyspace.as_str(),
        select.alias.as_str()
    )?;
    show_name(out, "use", &select.hint)?;
    for unnest in select.unnests.as_slice() {
        show_unnest(out, unnest)?;
    }
    show_part(out, " where ", &select.filter)
}

fn show_groups(out: &mut String, select: &Select) -> Result<(), AllocError> {
    for group in select.groups.as_slice() {
        out.push_str(" group ")?;
        show(out, group)?;
    }
    show_part(out, " having ", &select.having)
}

fn show_finish(out: &mut String, select: &Select) -> Result<(), AllocError> {
    for order in select.orders.as_slice() {
        show_order(out, order)?;
    }
    if let Some(limit) = select.limit {
        write!(out, " limit {limit}")?;
    }
    if select.offset > 0 {
        write!(out, " offset {}", select.offset)?;
    }
    Ok(())
}

/// What a SELECT is, in words.
fn text_of(alloc: Global, select: &Select) -> Result<String, AllocError> {
    let mut out = String::new(alloc);
    show_result(&mut out, select)?;
    show_source(&mut out, select)?;
    show_groups(&mut out, select)?;
    show_finish(&mut out, select)?;
    Ok(out)
}

fn select_of(alloc: Global, text: &str) -> Result<String, AllocError> {
    match select(alloc, text) {
        Ok(select) => text_of(alloc, &select),
        Err(_) => Ok(String::new(alloc)),
    }
}

fn check_selects(rt: &impl Abort, alloc: Global, table: &[(&str, &str)]) -> Result<(), Fail> {
    for (text, wanted) in table {
        assert_eq!(rt; select_of(alloc, text)?.as_str(), *wanted, "of {text:?}");
    }
    Ok(())
}

fn check_faults(rt: &impl Abort, alloc: Global, table: &[(&str, usize)]) {
    for (text, at) in table {
        let fault = select(alloc, text).err();
        assert_eq!(rt; fault, Some(ParseFault::Fault { at: *at }), "of {text:?}");
    }
}

/// The fault that a text has at its end where it is no SELECT.
fn fault_at_end(text: &str, is_select: bool) -> Option<ParseFault> {
    if is_select {
        None
    } else {
        Some(ParseFault::Fault { at: text.len() })
    }
}

fn check_fronts(rt: &impl Abort, alloc: Global, table: &[(&str, bool)]) -> Result<(), Fail> {
    let mut text = String::new(alloc);
    for (token, is_select) in table {
        text.push_str(token)?;
        let wanted = fault_at_end(text.as_str(), *is_select);
        assert_eq!(rt; select(alloc, text.as_str()).err(), wanted, "of {text:?}");
        text.push_str(" ")?;
    }
    Ok(())
}

#[test]
fn texts_are_these_selects(rt: HostRuntime) -> Result<(), Fail> {
    check_selects(&rt, rt.alloc(), &SELECTS)
}

#[test]
fn texts_have_these_faults_as_selects(rt: HostRuntime) {
    check_faults(&rt, rt.alloc(), &FAULTS);
}

#[test]
fn fronts_of_a_select_have_their_faults_at_the_end(rt: HostRuntime) -> Result<(), Fail> {
    check_fronts(&rt, rt.alloc(), &FRONTS)
}
