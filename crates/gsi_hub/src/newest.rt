//! The newest snapshot of each index, by number.
ghost use Rattle.std.specs.Prelude.{◌≡◌, ◌<◌, vec_len, slice_set, Some, None, option_map};
ghost use Rattle.std.specs.Option.{option_copied};
ghost use Rattle.std.specs.Arc.{arc_value};
ghost use Rattle.gsi_hub.specs.inner.Newest.{newest_of, newest_at};

use index_snapshot::Snapshot;
use std::sync::Arc;

pub(crate) type Newest = Vec<Option<Arc<Snapshot>>>;

/// That of an index, where it has one.
pub(crate) fn newest_in(newest: &Newest, i: u32) -> Option<&Arc<Snapshot>>
    ensures { option_map arc_value (option_copied result) ≡ newest_at (newest_of newest.now.items) i }
{
    match newest.get(i as usize) {
        Some(held) => held.as_ref(),
        None => None,
    }
}

/// Puts another in its place.
pub(crate) fn put_newest(newest: &mut Newest, i: usize, snapshot: Arc<Snapshot>)
    requires { i < vec_len newest.old }
    ensures { newest_of newest.new.items ≡ slice_set (newest_of newest.old.items) i (Some (arc_value snapshot)) }
{
    newest[i] = Some(snapshot);
}

/// Takes it away.
pub(crate) fn drop_newest(newest: &mut Newest, i: usize)
    requires { i < vec_len newest.old }
    ensures { newest_of newest.new.items ≡ slice_set (newest_of newest.old.items) i None }
{
    newest[i] = None;
}
