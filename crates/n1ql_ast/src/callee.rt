ghost use Rattle.std.specs.Prelude.{◌≡◌, find};
ghost use Rattle.std.specs.Str.{str_eq_ignore_ascii_case};
ghost use Rattle.n1ql_ast.specs.Callees as spec;

use crate::agg::Agg;
use n1ql_value::{Fun, same_word};

/// What a name before a bracket calls.
#[derive(Clone, Copy, Debug, PartialEq, Eq)]
pub enum Callee {
    Function(Fun),
    Aggregate(Agg),
    Meta,
    Nothing,
}

/// The aggregates of one expression.
const AGGREGATES: [Agg; 5] = [Agg::Count, Agg::Sum, Agg::Min, Agg::Max, Agg::ArrayAgg];

/// The name of an aggregate, in capitals.
fn aggregate_name(agg: Agg) -> &'static str
    ensures { result.now ≡ spec.aggregate_name agg }
{
    match agg {
        Agg::CountAll | Agg::Count => "COUNT",
        Agg::Sum => "SUM",
        Agg::Min => "MIN",
        Agg::Max => "MAX",
        Agg::ArrayAgg => "ARRAY_AGG",
    }
}

/// The aggregate of a table that a name is without regard to case.
fn aggregate_among(table: &[Agg], name: &str) -> Option<Agg>
    ensures { result ≡ find (λ agg. str_eq_ignore_ascii_case name.now (spec.aggregate_name agg)) table.now }
{
    for agg in table {
        if same_word(name, aggregate_name(*agg)) {
            return Some(*agg);
        }
    }
    None
}

/// The aggregate of one expression that a name is without regard to case.
#[tactic(auto, unfolding(crate::specs::Callees::aggregate_of))]
fn aggregate_of(name: &str) -> Option<Agg>
    ensures { result ≡ spec.aggregate_of name.now }
{
    aggregate_among(&AGGREGATES, name)
}

/// What a name without backquotes calls before a bracket.
#[tactic(auto, unfolding(crate::specs::Callees::callee_of))]
pub fn callee_of(name: &str) -> Callee
    ensures { result ≡ spec.callee_of name.now }
{
    if same_word(name, "META") {
        return Callee::Meta;
    }
    if let Some(agg) = aggregate_of(name) {
        return Callee::Aggregate(agg);
    }
    match Fun::by_name(name) {
        Some(fun) => Callee::Function(fun),
        None => Callee::Nothing,
    }
}
