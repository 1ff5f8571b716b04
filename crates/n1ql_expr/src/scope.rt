ghost use Rattle.std.specs.Prelude.{◌≡◌, ◌∷◌, []};
ghost use Rattle.std.specs.Option.{option_copied};
ghost use Rattle.n1ql_value.specs.Names.{under_name};
ghost use Rattle.n1ql_ast.specs.Evaluation.{inside};
ghost use Rattle.n1ql_expr.specs.Scopes.{environment_of, environment_on, locals_of, with_locals};

use crate::binding::Binding;
use crate::env::Env;
use crate::frames::Frames;
use n1ql_value::{Text, Value};

/// Where an expression stands: on a base, inside the frames of what binds a name around it.
///
/// The frames are apart from the base, since an aggregate is evaluated on each row of its group inside the same frames.
#[derive(Clone, Copy)]
pub struct Scope<'a> {
    pub base: &'a Env<'a>,
    pub frames: Frames<'a>,
}

impl<'a> Scope<'a> {
    /// The scope on a base, inside no frame.
    pub fn on(base: &'a Env<'a>) -> Scope<'a>
        ensures environment { environment_of result ≡ environment_on base.now }
        ensures base { result.base.now ≡ base.now }
        ensures frames { locals_of result.frames ≡ [] }
    {
        Scope {
            base,
            frames: Frames::Outermost,
        }
    }

    /// The scope inside one more frame, of something that binds a name to a value.
    #[tactic(auto, using(crate::proofs::Around::around))]
    pub fn inside(outer: &'a Scope<'a>, name: &'a Text, value: &'a Value) -> Scope<'a>
        ensures environment { environment_of result ≡ inside name.now value.now (environment_of outer.now) }
        ensures base { result.base.now ≡ outer.now.base.now }
        ensures frames { locals_of result.frames ≡ (name.now, value.now) ∷ locals_of outer.now.frames }
    {
        Scope {
            base: outer.base,
            frames: Frames::Inside {
                outer: &outer.frames,
                local: Binding { name, value },
            },
        }
    }

    /// The scope inside the same frames, on another base.
    pub fn moved_to(&self, base: &'a Env<'a>) -> Scope<'a>
        ensures environment { environment_of result ≡ with_locals (locals_of self.now.frames) (environment_on base.now) }
        ensures base { result.base.now ≡ base.now }
        ensures frames { locals_of result.frames ≡ locals_of self.now.frames }
    {
        Scope {
            base,
            frames: self.frames,
        }
    }

    /// The value of the innermost binding of a name: that of a frame, else that of the base.
    pub fn bound_to(&self, name: &Text) -> Option<&'a Value>
        ensures { option_copied result ≡ under_name name.now (environment_of self.now).bound }
    {
        match self.frames.bound_to(name) {
            Some(value) => Some(value),
            None => self.base.bound_to(name),
        }
    }
}
