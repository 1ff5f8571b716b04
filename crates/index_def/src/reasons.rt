//! The reasons of statements that define no index.

ghost use Rattle.std.specs.Prelude.{◌≡◌, [], true, codes, find, length};
ghost use Rattle.std.specs.List.{cons_option, filter, flat_map, list_all, list_any};
ghost use Rattle.std.specs.Option.{option_map_or};
ghost use Rattle.std.specs.Str.{bytes_eq};
ghost use Rattle.n1ql_ast.specs.declared.expr.Expr.{out-Expr};
ghost use Rattle.index_def.specs.Mentions as mentions;
ghost use Rattle.index_def.specs.Reasons as spec;

use crate::mention::is_silent_on;
use crate::reason::Reason;
use crate::subject::Subject;
use n1ql_ast::{Create, Expr, Key};
use n1ql_value::{Text, Value};

/// The most keys of an index.
const MOST_KEYS: usize = 16;

/// The reasons, in the order in which they are told.
const REASONS: [Reason; 5] = [
    Reason::TooManyKeys,
    Reason::TwoArrays,
    Reason::ConstantKey,
    Reason::MetaAlias,
    Reason::With,
];

/// The reason that is told, where the statement has one.
pub fn first_reason(c: &Create) -> Option<Reason>
    ensures { result ≡ spec.first_reason c.now }
{
    first_among(&REASONS, c)
}

/// The first of some reasons that the statement has.
fn first_among(reasons: &[Reason], c: &Create) -> Option<Reason>
    ensures { result ≡ find (λ reason. spec.has_reason reason c.now) reasons.now }
{
    for reason in reasons {
        if has_reason(*reason, c) {
            return Some(*reason);
        }
    }
    None
}

/// Whether the statement has the reason.
fn has_reason(reason: Reason, c: &Create) -> bool
    ensures { result ≡ spec.has_reason reason c.now }
{
    match reason {
        Reason::TooManyKeys => c.keys.len() > MOST_KEYS,
        Reason::TwoArrays => count_arrays(c.keys.as_slice()) > 1,
        Reason::ConstantKey => has_constant(c.keys.as_slice()),
        Reason::MetaAlias => has_other_meta(c),
        Reason::With => !are_options(&c.options),
    }
}

/// How many keys are array keys.
fn count_arrays(keys: &[Key]) -> usize
    ensures { result ≡ length (filter spec.is_array keys.now) }
{
    let mut count = 0;
    for key in keys {
        if matches!(key, Key::Each { .. }) {
            count += 1;
        }
    }
    count
}

/// Whether some key is a constant.
fn has_constant(keys: &[Key]) -> bool
    ensures { result ≡ list_any spec.is_constant keys.now }
{
    keys.iter().any(|key| is_constant(key))
}

/// Whether neither the document, nor a field of it, nor META of it stands in a key.
fn is_constant(key: &Key) -> bool
    ensures { result ≡ spec.is_constant key.now }
{
    is_key_silent_on(key, Subject::Document)
}

/// Whether no expression of a key speaks of the subject.
fn is_key_silent_on(key: &Key, subject: Subject) -> bool
    ensures { result ≡ list_all (mentions.is_silent_on subject) (spec.parts_of key.now) }
{
    match key {
        Key::Plain(e) => is_silent_on(e, subject),
        Key::Each {
            item,
            over,
            when,
            ..
        } => {
            is_silent_on(item, subject)
                && is_silent_on(over, subject)
                && is_part_silent_on(when, subject)
        }
    }
}

/// Whether each key is silent on the subject.
fn are_keys_silent_on(keys: &[Key], subject: Subject) -> bool
    ensures { result ≡ list_all (mentions.is_silent_on subject) (flat_map spec.parts_of keys.now) }
{
    for key in keys {
        if !is_key_silent_on(key, subject) {
            return false;
        }
    }
    true
}

/// Whether an expression, which there may be, is silent on the subject.
fn is_part_silent_on(e: &Option<Expr>, subject: Subject) -> bool
    ensures { result ≡ list_all (mentions.is_silent_on subject) (cons_option e.now []) }
{
    match e {
        Some(e) => is_silent_on(e, subject),
        None => true,
    }
}

/// Whether META of another name stands in the statement.
fn has_other_meta(c: &Create) -> bool
    ensures { result ≡ spec.has_reason Reason.MetaAlias c.now }
{
    !(are_keys_silent_on(c.keys.as_slice(), Subject::OtherName)
        && is_part_silent_on(&c.filter, Subject::OtherName)
        && is_part_silent_on(&c.options, Subject::OtherName))
}

/// Whether there are no options, or each is `defer_build` with TRUE or FALSE.
fn are_options(options: &Option<Expr>) -> bool
    ensures { result ≡ option_map_or (λ e. spec.defers (out-Expr e)) options.now true }
{
    match options {
        Some(e) => defers(e),
        None => true,
    }
}

/// Whether an expression is an object of which each pair is `defer_build` with TRUE or FALSE, written out.
fn defers(e: &Expr) -> bool
    ensures { result ≡ spec.defers (out-Expr e.now) }
{
    match e {
        Expr::Build(names, values) => {
            are_defer_build(names.as_slice()) && are_truths(values.as_slice())
        }
        _ => false,
    }
}

/// Whether each name is that of the one option.
fn are_defer_build(names: &[Text]) -> bool
    ensures { result ≡ list_all (bytes_eq (codes "defer_build")) names.now }
{
    names.iter().all(|name| is_defer_build(name))
}

/// Whether each expression is TRUE or FALSE, written out.
fn are_truths(values: &[Expr]) -> bool
    ensures { result ≡ list_all (λ e. spec.is_truth (out-Expr e)) values.now }
{
    values.iter().all(|value| is_truth(value))
}

/// Whether a name is that of the one option.
fn is_defer_build(name: &Text) -> bool
    ensures { result ≡ bytes_eq (codes "defer_build") name.now }
{
    "defer_build" == name.as_str()
}

/// Whether an expression is TRUE or FALSE, written out.
fn is_truth(e: &Expr) -> bool
    ensures { result ≡ spec.is_truth (out-Expr e.now) }
{
    matches!(e, Expr::Const(Value::Bool(_)))
}
