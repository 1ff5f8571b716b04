//! What the lock keeps.
ghost use Rattle.std.specs.Prelude.{◌≡◌, ℕ, List, Option, length};

/// A state that is seen as the list of its events.
pub trait Chronicle {
    /// An event. No value of it is made for the lock.
    type Entry;

    // The state's events, in order.
    ghost events: { Self → List Self.Entry };

    // The party that an event names, where it names one.
    ghost party: { Self.Entry → Option ℕ };

    /// The number of events.
    fn count(&self) -> u64
        ensures { result ≡ length (events self.now) };
}
