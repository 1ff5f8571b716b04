ghost use Rattle.std.specs.Prelude.{◌≡◌, [], slice_get};
ghost use Rattle.std.specs.Option.{option_copied, option_map};
ghost use Rattle.n1ql_value.specs.Collation.{key_at};
ghost use Rattle.n1ql_value.specs.Datum.{datum_of, value_of};
ghost use Rattle.n1ql_value.specs.Kinds.{or_missing};
ghost use Rattle.n1ql_value.specs.Names.{under_name};
ghost use Rattle.n1ql_ast.specs.Evaluation.{on_document};
ghost use Rattle.n1ql_expr.specs.Scopes.{environment_on, innermost_first, off_document};

use crate::binding::Binding;
use n1ql_value::{Text, Vals, Value};

/// What an expression is evaluated on, borrowed from wherever it stands: a document or a row of one, or the key values of a row
/// of an index.
#[derive(Clone, Copy)]
pub struct Env<'a> {
    /// The id of the document, none where there is no document.
    pub id: Option<&'a Text>,
    pub doc: &'a Value,
    pub keys: &'a Vals,
    /// The row's own bound names, the innermost last.
    pub bound: &'a [Binding<'a>],
}

impl<'a> Env<'a> {
    /// A document, with no name bound.
    pub fn of_document(id: &'a Text, doc: &'a Value, keys: &'a Vals) -> Env<'a>
        ensures { environment_on result ≡ on_document id.now doc.now keys.now }
    {
        Env {
            id: Some(id),
            doc,
            keys,
            bound: &[],
        }
    }

    /// A value that is no document and has no id, with no name bound.
    pub fn of_value(doc: &'a Value, keys: &'a Vals) -> Env<'a>
        ensures { environment_on result ≡ off_document doc.now keys.now }
    {
        Env {
            id: None,
            doc,
            keys,
            bound: &[],
        }
    }

    /// The key value at a place from 0, None past the last.
    #[tactic(auto, using(crate::proofs::Values::key_found))]
    pub fn key(&self, at: u32) -> Option<&'a Value>
        ensures found { option_map datum_of (option_copied result) ≡ slice_get self.now.keys.now at }
        ensures value { or_missing (option_copied result) ≡ value_of (key_at self.now.keys.now at) }
    {
        self.keys.get(at as usize)
    }

    /// The value of the row's innermost binding of a name.
    pub fn bound_to(&self, name: &Text) -> Option<&'a Value>
        ensures { option_copied result ≡ under_name name.now (environment_on self.now).bound }
    {
        innermost(self.bound, name)
    }
}

/// The value of the last binding of a name.
fn innermost<'a>(bound: &'a [Binding<'a>], name: &Text) -> Option<&'a Value>
    ensures { option_copied result ≡ under_name name.now (innermost_first bound.now) }
{
    for at in (0..bound.len()).rev() {
        let binding = &bound[at];
        if binding.binds(name) {
            return Some(binding.value);
        }
    }
    None
}
