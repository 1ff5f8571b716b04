//! The kinds of step on the table, and what each tells.
ghost use Rattle.history_lock.specs.Rule.{takes_turn, marks, gives_turn, looks, counted, next_view, noted, learnt, spent_view};

use crate::chronicle::Chronicle;
use crate::view::View;
use atomic_table::{Join, Play, Split};

/// Takes the turn, if none is held.
pub(crate) struct Take;

impl<S: Chronicle> Play<Option<S>, View<S::Entry>> for Take {
    ghost then = { takes_turn S.events S.party };
}

/// Stores a word on which nothing rests.
pub(crate) struct Mark;

impl<S: Chronicle> Play<Option<S>, View<S::Entry>> for Mark {
    ghost then = { marks };
}

/// Gives the turn and the state back.
pub(crate) struct Give;

impl<S: Chronicle> Play<Option<S>, View<S::Entry>> for Give {
    ghost then = { gives_turn S.events };
}

/// Looks at what was learnt last.
pub(crate) struct Look;

impl<S: Chronicle> Play<Option<S>, View<S::Entry>> for Look {
    ghost then = { looks };
}

/// Makes the next pass from the first one.
pub(crate) struct NewPass;

impl<E> Split<View<E>> for NewPass {
    ghost left = { counted };

    ghost right = { next_view };
}

/// Makes a note from a pass.
pub(crate) struct Tell;

impl<E> Split<View<E>> for Tell {
    ghost left = { λ v. v };

    ghost right = { noted };
}

/// Adds a note to what a pass knows.
pub(crate) struct Learn;

impl<E> Join<View<E>> for Learn {
    ghost both = { learnt };

    ghost spent = { spent_view };
}
