use n1ql_ast::{Agg, Callee, Expr, Keyword, Scope, UnresolvedExpr, callee_of, resolve};
use n1ql_value::{Fun, Memory, Text};
use sqlite_items::Boxed;
use std::alloc::Global;

#[test]
fn words_and_signs_are_told_by_their_spelling(rt: HostRuntime) {
    assert_eq!(rt; Keyword::spelt("SATISFIES"), Some(Keyword::Satisfies));
    assert_eq!(rt; Keyword::spelt("||"), Some(Keyword::DoubleBar));
    assert_eq!(rt; Keyword::spelt("satisfies"), None);
    assert_eq!(rt; Keyword::LessGreater.spelling(), "<>");
}

#[test]
fn names_call_functions_aggregates_and_meta(rt: HostRuntime) {
    assert_eq!(rt; callee_of("ifnull"), Callee::Function(Fun::IfNull));
    assert_eq!(rt; callee_of("Array_Agg"), Callee::Aggregate(Agg::ArrayAgg));
    assert_eq!(rt; callee_of("COUNT"), Callee::Aggregate(Agg::Count));
    assert_eq!(rt; callee_of("meta"), Callee::Meta);
    assert_eq!(rt; callee_of("sums"), Callee::Nothing);
}

/// A name by itself, in a box.
fn name(alloc: Global, text: &str) -> Result<Boxed<UnresolvedExpr>, Memory> {
    Ok(Boxed::new(alloc, UnresolvedExpr::Name(Text::of(alloc, text)?))?)
}

// ANY v IN v SATISFIES v END
fn any(alloc: Global) -> Result<UnresolvedExpr, Memory> {
    let variable = Text::of(alloc, "v")?;
    let over = name(alloc, "v")?;
    let test = name(alloc, "v")?;
    Ok(UnresolvedExpr::Any(variable, over, test))
}

fn meaning(alloc: Global, unresolved: &UnresolvedExpr) -> Result<Expr, Memory> {
    let mut scope = Scope::new(alloc, "ks")?;
    resolve(alloc, unresolved, &mut scope)
}

fn is_field_then_variable(e: &Expr) -> bool {
    match e {
        Expr::Any(_, over, test) => {
            matches!(over.get(), Expr::Field(_, _)) && matches!(test.get(), Expr::Var(_))
        }
        _ => false,
    }
}

#[test]
fn a_variable_is_not_seen_after_its_own_in(rt: HostRuntime) -> Result<(), Memory> {
    let unresolved = any(rt.alloc())?;
    let e = meaning(rt.alloc(), &unresolved)?;
    assert!(rt; is_field_then_variable(&e));
    Ok(())
}
