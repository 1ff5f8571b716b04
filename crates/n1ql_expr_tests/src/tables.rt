//! What the tables of the tests are made of: values and expressions without memory of their own. The tables.

use Plain::{Array, Int, Missing, Null, Object};
use Tree::{Any, Build, Call, Case, Each, Every, Field, First, Is, List, Name, Of, Place, Two};
use n1ql_ast::{Agg, Test};
use n1ql_value::{Fun, Op};

/// A value of a table.
pub enum Plain {
    Missing,
    Null,
    Truth(bool),
    Int(i64),
    Text(&'static str),
    Array(&'static [Plain]),
    Object(&'static [(&'static str, Plain)]),
}

/// An expression of a table.
pub enum Tree {
    Of(Plain),
    Doc,
    Meta(bool),
    Name(&'static str),
    Key(u32),
    Field(&'static Tree, &'static str),
    Place(&'static Tree, &'static Tree),
    Not(&'static Tree),
    Neg(&'static Tree),
    Two(Op, &'static Tree, &'static Tree),
    Is(Test, &'static Tree),
    Among(&'static Tree, &'static Tree),
    Between(&'static Tree, &'static Tree, &'static Tree),
    Call(Fun, &'static [Tree]),
    List(&'static [Tree]),
    Build(&'static [&'static str], &'static [Tree]),
    Case(&'static [Tree], &'static [Tree], Option<&'static Tree>),
    Any(&'static str, &'static Tree, &'static Tree),
    Every(&'static str, &'static Tree, &'static Tree),
    Each(&'static str, &'static Tree, &'static Tree, Option<&'static Tree>),
    First(&'static str, &'static Tree, &'static Tree, Option<&'static Tree>),
    Agg(Agg),
}

const MISSING: Tree = Of(Missing);

const NULL: Tree = Of(Null);

const YES: Tree = Of(Plain::Truth(true));

const NO: Tree = Of(Plain::Truth(false));

const ZERO: Tree = Of(Int(0));

const ONE: Tree = Of(Int(1));

const TWO: Tree = Of(Int(2));

const MINUS_ONE: Tree = Of(Int(-1));

const LEAST: Tree = Of(Int(i64::MIN));

const NONE: Tree = Of(Array(&[]));

const NUMBERS: Tree = Of(Array(&[Int(3), Int(1), Int(2)]));

/// The variable of most expressions that bind one.
pub const V: Tree = Name("v");

/// The document's field n.
pub const N: Tree = Field(&Tree::Doc, "n");

/// v > 1
const PAST_ONE: Tree = Two(Op::Gt, &V, &ONE);

const TRUE: Plain = Plain::Truth(true);

const FALSE: Plain = Plain::Truth(false);

/// The document {"a": {"b": {"c": 7}}, "n": null, "xs": [3, 1, 2]}.
pub const DOCUMENT: Plain = Object(&[
    (
        "a",
        Object(&[("b", Object(&[("c", Int(7)), ("xs", Array(&[Int(5)]))]))]),
    ),
    ("n", Null),
    ("xs", Array(&[Int(3), Int(1), Int(2)])),
]);

static PATHS: [(Tree, Plain); 17] = [
    // the document, its fields and their places
    (N, Null),
    (Field(&Tree::Doc, "absent"), Missing),
    (Field(&Field(&Field(&Tree::Doc, "a"), "b"), "c"), Int(7)),
    (Field(&Field(&Tree::Doc, "xs"), "a"), Missing),
    (Field(&Field(&Tree::Doc, "n"), "a"), Missing),
    (Place(&Field(&Tree::Doc, "xs"), &ZERO), Int(3)),
    (Place(&Field(&Tree::Doc, "xs"), &MINUS_ONE), Int(2)),
    (Place(&Field(&Tree::Doc, "xs"), &Of(Int(3))), Missing),
    (Place(&Field(&Tree::Doc, "xs"), &Of(Int(-4))), Missing),
    (Place(&Field(&Tree::Doc, "a"), &ZERO), Missing),
    (Place(&Field(&Tree::Doc, "xs"), &NULL), Missing),
    (
        Place(&Field(&Field(&Field(&Tree::Doc, "a"), "b"), "xs"), &ZERO),
        Int(5),
    ),
    // of what an expression makes
    (Place(&List(&[ONE, TWO]), &MINUS_ONE), Int(2)),
    (Field(&Build(&["f"], &[ONE]), "f"), Int(1)),
    // META of the document and of another name
    (Field(&Tree::Meta(true), "id"), Plain::Text("k1")),
    (Tree::Meta(true), Object(&[("id", Plain::Text("k1"))])),
    (Tree::Meta(false), Missing),
];

static NAMES: [(Tree, Plain); 5] = [
    (Name("unbound"), Missing),
    (Tree::Key(0), Int(5)),
    (Tree::Key(1), Null),
    (Tree::Key(2), Missing),
    (Tree::Agg(Agg::CountAll), Missing),
];

static OPERATORS: [(Tree, Plain); 22] = [
    // -9223372036854775808 % -1
    (Two(Op::Mod, &LEAST, &MINUS_ONE), Int(0)),
    (Tree::Neg(&LEAST), Null),
    (Tree::Neg(&ONE), Int(-1)),
    (Tree::Not(&YES), FALSE),
    (Tree::Not(&MISSING), Missing),
    (Tree::Not(&ONE), Null),
    (Two(Op::And, &MISSING, &NO), FALSE),
    (Two(Op::Or, &NULL, &MISSING), Null),
    (Two(Op::Sub, &ONE, &TWO), Int(-1)),
    (Is(Test::Missing, &MISSING), TRUE),
    (Is(Test::Missing, &NULL), FALSE),
    (Is(Test::Valued, &MISSING), FALSE),
    (Is(Test::Valued, &NULL), FALSE),
    (Is(Test::Valued, &NO), TRUE),
    (Is(Test::Null, &MISSING), Missing),
    (Is(Test::Null, &NULL), TRUE),
    (Is(Test::Null, &ZERO), FALSE),
    (Tree::Among(&TWO, &NUMBERS), TRUE),
    (Tree::Among(&NUMBERS, &TWO), Null),
    (Tree::Between(&TWO, &ONE, &TWO), TRUE),
    (Tree::Between(&ONE, &TWO, &NULL), FALSE),
    (Tree::Between(&TWO, &TWO, &MISSING), Missing),
];

static FUNCTIONS: [(Tree, Plain); 4] = [
    // IFNULL(MISSING, 1)
    (Call(Fun::IfNull, &[MISSING, ONE]), Missing),
    // LENGTH('é')
    (Call(Fun::Length, &[Of(Plain::Text("é"))]), Int(1)),
    (Call(Fun::Greatest, &[ONE, MISSING, TWO, NULL]), Int(2)),
    (
        Call(Fun::TypeOf, &[Call(Fun::ObjectNames, &[Tree::Doc])]),
        Plain::Text("array"),
    ),
];

static CONSTRUCTORS: [(Tree, Plain); 8] = [
    (List(&[]), Array(&[])),
    (List(&[ONE, MISSING]), Array(&[Int(1), Null])),
    (Build(&[], &[]), Object(&[])),
    (
        Build(&["b", "a"], &[ONE, TWO]),
        Object(&[("a", Int(2)), ("b", Int(1))]),
    ),
    (Build(&["a", "b"], &[MISSING, NULL]), Object(&[("b", Null)])),
    // of a repeated name the last that isn't left out counts
    (Build(&["a", "a"], &[ONE, TWO]), Object(&[("a", Int(2))])),
    (
        Build(&["a", "a", "a"], &[ONE, TWO, MISSING]),
        Object(&[("a", Int(2))]),
    ),
    (Build(&["a", "a"], &[ONE, NULL]), Object(&[("a", Null)])),
];

static CASES: [(Tree, Plain); 8] = [
    (Case(&[YES], &[ONE], None), Int(1)),
    (Case(&[NO], &[ONE], None), Null),
    (Case(&[NO], &[ONE], Some(&TWO)), Int(2)),
    (Case(&[YES], &[ONE], Some(&TWO)), Int(1)),
    // only TRUE is taken
    (Case(&[NULL, MISSING, ONE], &[ONE, ONE, ONE], None), Null),
    (Case(&[NULL, YES, YES], &[ZERO, ONE, TWO], None), Int(1)),
    (Case(&[YES], &[MISSING], Some(&TWO)), Missing),
    (Case(&[NO], &[ONE], Some(&MISSING)), Missing),
];

static TESTS_OF_ELEMENTS: [(Tree, Plain); 18] = [
    (Any("v", &NONE, &YES), FALSE),
    (Any("v", &NUMBERS, &PAST_ONE), TRUE),
    (Any("v", &NUMBERS, &Two(Op::Gt, &V, &Of(Int(3)))), FALSE),
    (Any("v", &NUMBERS, &V), FALSE),
    (Any("v", &NUMBERS, &NULL), FALSE),
    (Any("v", &MISSING, &YES), Missing),
    (Any("v", &NULL, &YES), Null),
    (Any("v", &ONE, &YES), Null),
    (Any("v", &Field(&Tree::Doc, "xs"), &PAST_ONE), TRUE),
    // EVERY v IN [] SATISFIES v END
    (Every("v", &NONE, &V), TRUE),
    (Every("v", &NONE, &NO), TRUE),
    (Every("v", &NUMBERS, &PAST_ONE), FALSE),
    (Every("v", &NUMBERS, &Two(Op::Gt, &V, &ZERO)), TRUE),
    (Every("v", &NUMBERS, &NULL), FALSE),
    (Every("v", &NUMBERS, &V), FALSE),
    (Every("v", &MISSING, &YES), Missing),
    (Every("v", &NULL, &YES), Null),
    (Every("v", &Tree::Doc, &YES), Null),
];

static ITEMS: [(Tree, Plain); 18] = [
    (Each("v", &V, &NONE, None), Array(&[])),
    (
        Each("v", &V, &NUMBERS, None),
        Array(&[Int(3), Int(1), Int(2)]),
    ),
    (
        Each("v", &V, &NUMBERS, Some(&PAST_ONE)),
        Array(&[Int(3), Int(2)]),
    ),
    (Each("v", &V, &NUMBERS, Some(&NULL)), Array(&[])),
    // a MISSING item is left out, a NULL one stays
    (Each("v", &MISSING, &NUMBERS, None), Array(&[])),
    (
        Each("v", &V, &Of(Array(&[Null, Int(1)])), None),
        Array(&[Null, Int(1)]),
    ),
    (
        Each(
            "v",
            &Field(&V, "a"),
            &Of(Array(&[Object(&[("a", Int(1))]), Object(&[])])),
            None,
        ),
        Array(&[Int(1)]),
    ),
    (Each("v", &V, &MISSING, None), Missing),
    (Each("v", &V, &NULL, None), Null),
    (Each("v", &V, &Tree::Doc, None), Null),
    (First("v", &V, &NUMBERS, None), Int(3)),
    (
        First("v", &V, &NUMBERS, Some(&Two(Op::Lt, &V, &Of(Int(3))))),
        Int(1),
    ),
    (First("v", &V, &NUMBERS, Some(&NO)), Missing),
    (First("v", &V, &NONE, None), Missing),
    // the first element, though its item is MISSING
    (
        First(
            "v",
            &Field(&V, "a"),
            &Of(Array(&[Object(&[]), Object(&[("a", Int(1))])])),
            None,
        ),
        Missing,
    ),
    (First("v", &V, &MISSING, None), Missing),
    (First("v", &V, &NULL, None), Null),
    (First("v", &V, &ONE, None), Null),
];

static HIDDEN: [(Tree, Plain); 3] = [
    // the inner v, in ANY v IN [[1]] SATISFIES (ANY v IN v SATISFIES v = 1 END) END
    (
        Any(
            "v",
            &Of(Array(&[Array(&[Int(1)])])),
            &Any("v", &V, &Two(Op::Eq, &V, &ONE)),
        ),
        TRUE,
    ),
    // the outer v is there again behind the inner one
    (
        Each(
            "v",
            &List(&[First("v", &V, &Of(Array(&[Int(9)])), None), V]),
            &NUMBERS,
            None,
        ),
        Array(&[
            Array(&[Int(9), Int(3)]),
            Array(&[Int(9), Int(1)]),
            Array(&[Int(9), Int(2)]),
        ]),
    ),
    // two variables
    (
        Each(
            "w",
            &Each("v", &Two(Op::Mul, &V, &Name("w")), &NUMBERS, None),
            &Of(Array(&[Int(1), Int(10)])),
            None,
        ),
        Array(&[
            Array(&[Int(3), Int(1), Int(2)]),
            Array(&[Int(30), Int(10), Int(20)]),
        ]),
    ),
];

/// Conditions, and the operands of their ANDs.
static CONJUNCTIONS: [(Tree, &[Tree]); 3] = [
    (
        Two(
            Op::And,
            &Two(Op::And, &Name("a"), &Two(Op::And, &Name("b"), &Name("c"))),
            &Name("d"),
        ),
        &[Name("a"), Name("b"), Name("c"), Name("d")],
    ),
    (
        Two(Op::Or, &Two(Op::And, &Name("a"), &Name("b")), &Name("c")),
        &[Two(Op::Or, &Two(Op::And, &Name("a"), &Name("b")), &Name("c"))],
    ),
    (
        Two(
            Op::And,
            &Tree::Not(&Two(Op::And, &Name("a"), &Name("b"))),
            &YES,
        ),
        &[Tree::Not(&Two(Op::And, &Name("a"), &Name("b"))), YES],
    ),
];

/// Expressions that all differ.
static DIFFERENT: [Tree; 32] = [
    MISSING,
    NULL,
    ONE,
    Tree::Doc,
    Tree::Meta(true),
    Tree::Meta(false),
    V,
    Name("V"),
    Tree::Key(0),
    Tree::Key(1),
    Field(&Tree::Doc, "a"),
    Field(&Tree::Doc, "b"),
    Field(&V, "a"),
    Place(&V, &ZERO),
    Place(&V, &ONE),
    Tree::Not(&V),
    Tree::Neg(&V),
    Two(Op::Add, &ONE, &TWO),
    Two(Op::Add, &TWO, &ONE),
    Two(Op::Sub, &ONE, &TWO),
    Is(Test::Null, &V),
    Tree::Among(&V, &NONE),
    Tree::Between(&V, &ONE, &TWO),
    Call(Fun::Least, &[ONE]),
    Call(Fun::Least, &[ONE, ONE]),
    List(&[ONE]),
    Build(&["a"], &[ONE]),
    Case(&[YES], &[ONE], None),
    Any("v", &NUMBERS, &V),
    Every("v", &NUMBERS, &V),
    Each("v", &V, &NUMBERS, None),
    First("v", &V, &NUMBERS, None),
];

pub fn paths() -> &'static [(Tree, Plain)] {
    &PATHS
}

pub fn names() -> &'static [(Tree, Plain)] {
    &NAMES
}

pub fn operators() -> &'static [(Tree, Plain)] {
    &OPERATORS
}

pub fn functions() -> &'static [(Tree, Plain)] {
    &FUNCTIONS
}

pub fn constructors() -> &'static [(Tree, Plain)] {
    &CONSTRUCTORS
}

pub fn cases() -> &'static [(Tree, Plain)] {
    &CASES
}

pub fn tests_of_elements() -> &'static [(Tree, Plain)] {
    &TESTS_OF_ELEMENTS
}

pub fn items() -> &'static [(Tree, Plain)] {
    &ITEMS
}

pub fn hidden() -> &'static [(Tree, Plain)] {
    &HIDDEN
}

pub fn conjunctions() -> &'static [(Tree, &'static [Tree])] {
    &CONJUNCTIONS
}

pub fn different() -> &'static [Tree] {
    &DIFFERENT
}
