use n1ql_value::Text;
use seq_vector::Vector;

/// A line of the schedule: what the replay does next.
#[derive(Drop)]
pub enum Turn {
    /// The next action of a client.
    Client { c: u32 },
    /// The next piece of a vBucket: of the maintenance stream, or of the initial stream of an index.
    Project { vb: u32, index: Option<Text> },
    /// The piece at a place of an index's inbox, from 0, is given to its worker.
    Deliver { index: Text, place: u64 },
    /// That piece is forgotten.
    Lose { index: Text, place: u64 },
    /// The rows of an index's worker are published.
    Publish { index: Text },
    /// A stream goes back to a vector: the maintenance stream, or the initial stream of an index.
    Rewind { to: Vector, index: Option<Text> },
}
