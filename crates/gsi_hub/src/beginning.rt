use seq_vector::Vector;

/// What a request begins with.
#[derive(Drop)]
pub enum Beginning {
    /// An index, the vector that its answer has to cover, twice, and the newest numbers.
    On {
        i: u32,
        demand: Vector,
        again: Vector,
        since: Vector,
    },
    /// The code of its refusal.
    Refused {
        code: u8,
    },
}
