//! A list of results as JSON.

ghost use Rattle.std.specs.Prelude.{◌≡◌, ◌∷◌, [], ◌++◌, None, Some, map, IfErr, IfOk, OnOk};
ghost use Rattle.serde_json.specs.Written.{comma_if};
ghost use Rattle.n1ql_json.specs.Json.{text_of};
ghost use Rattle.n1ql_value.specs.Datum.{datum_of};
ghost use Rattle.query_run.specs.Texts as spec;

use crate::run_fault::RunFault;
use n1ql_json::write;
use n1ql_value::limits::MAX_ANSWER_BYTES;
use n1ql_value::{ListOf, Memory, Value};
use std::alloc::Global;

/// The text of a list of values.
///
/// # Errors
///
/// `TooLarge` exactly where it is longer than an answer may be. `Memory` where memory ran out.
pub fn list_text(alloc: Global, values: &[Value]) -> Result<ListOf<u8>, RunFault>
    ensures text { IfOk result (λ text. spec.within (spec.list_text (map datum_of values.now)) ≡ Some text) }
    ensures too_large { IfErr result (spec.IsTooLarge (spec.list_text (map datum_of values.now))) }
{
    match text_within(alloc, values) {
        Ok(Some(text)) => Ok(text),
        Ok(None) => Err(RunFault::TooLarge),
        Err(_) => Err(RunFault::Memory),
    }
}

/// The text, where it isn't too large. Of one that is no more is made than up to the value that passes the limit.
#[tactic(auto, using(crate::proofs::Texts::item_added, crate::proofs::Texts::passes, crate::proofs::Texts::begins))]
fn text_within(alloc: Global, values: &[Value]) -> Result<Option<ListOf<u8>>, Memory>
    ensures { IfOk result (λ text. text ≡ spec.within (spec.list_text (map datum_of values.now))) }
{
    let mut text = opened(alloc)?;
    let mut later = false;
    for value in values {
        if text.len() >= MAX_ANSWER_BYTES {
            return Ok(None);
        }
        add_item(&mut text, later, value)?;
        later = true;
    }
    closed_within(text)
}

/// The bracket that opens a list.
fn opened(alloc: Global) -> Result<Vec<u8>, Memory>
    ensures { IfOk result (λ text. text.items ≡ 91 ∷ []) }
{
    let mut text = Vec::new(alloc);
    text.push(b'[')?;
    Ok(text)
}

/// Adds an item behind those that there are.
fn add_item(text: &mut Vec<u8>, later: bool, value: &Value) -> Result<(), Memory>
    ensures { OnOk result (text.new.items ≡ text.old.items ++ (comma_if later ++ text_of (datum_of value.now))) }
{
    if later {
        text.push(b',')?;
    }
    write(value, text)
}

/// The text with the bracket that closes the list, where it isn't too large.
#[tactic(auto, using(crate::proofs::Texts::fits, crate::proofs::Texts::too_long))]
fn closed_within(text: Vec<u8>) -> Result<Option<ListOf<u8>>, Memory>
    ensures { IfOk result (λ whole. whole ≡ spec.within (text.items ++ 93 ∷ [])) }
{
    if text.len() < MAX_ANSWER_BYTES {
        Ok(Some(closed(text)?))
    } else {
        Ok(None)
    }
}

/// The text with the bracket that closes the list.
fn closed(mut text: Vec<u8>) -> Result<ListOf<u8>, Memory>
    ensures { IfOk result (λ whole. whole ≡ text.items ++ 93 ∷ []) }
{
    text.push(b']')?;
    Ok(ListOf::from_vec(text))
}
