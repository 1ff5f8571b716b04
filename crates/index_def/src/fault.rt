use crate::reason::Reason;

/// Why no definition was made.
#[derive(Clone, Copy, Debug, PartialEq, Eq)]
pub enum DefFault {
    /// The statement defines no index.
    Bad(Reason),
    /// Memory ran out.
    Memory,
}
