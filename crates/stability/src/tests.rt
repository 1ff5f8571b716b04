ghost use Rattle.std.specs.Prelude.{◌≡◌, ◌≤◌, length};

use crate::{Offer, Tracker};
use n1ql_value::Memory;

/// Offers numbers of a vBucket, and says what became of them and whether all markers have come to their ends.
fn offered(tracker: &mut Tracker, vb: u32, from: u64, to: u64, end: u64) -> Option<(Offer, bool)>
    requires some { from ≤ to }
    requires marker { to ≤ end }
{
    if vb >= tracker.vector().len() {
        return None;
    }
    let offer = tracker.offer(vb, from, to, end);
    Some((offer, tracker.at_ends()))
}

#[test]
fn repeats_and_gaps_change_nothing(rt: HostRuntime) -> Result<(), Memory> {
    let mut tracker = Tracker::new(rt.alloc(), 2)?;

    assert_eq!(rt;
        offered(&mut tracker, 1, 1, 2, 4),
        Some((Offer::Next { after: 0 }, false))
    );
    assert_eq!(rt;
        offered(&mut tracker, 1, 2, 2, 4),
        Some((Offer::Repeat, false))
    );
    assert_eq!(rt;
        offered(&mut tracker, 1, 4, 4, 4),
        Some((Offer::Gap { have: 2, from: 4 }, false))
    );
    assert_eq!(rt;
        offered(&mut tracker, 1, 2, 4, 4),
        Some((Offer::Next { after: 2 }, true))
    );
    assert_eq!(rt;
        offered(&mut tracker, 0, 1, 1, 1),
        Some((Offer::Next { after: 0 }, true))
    );
    assert_eq!(rt; (tracker.vector().first_short(tracker.vector())), None);
    Ok(())
}
