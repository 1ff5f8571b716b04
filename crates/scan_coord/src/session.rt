use seq_vector::Vector;

/// What a client has seen in answers, and the highest numbers that it wrote itself.
#[derive(Drop)]
pub struct Session {
    pub seen: Vector,
    pub wrote: Vector,
}
