/// How far an index has come.
#[derive(Clone, Copy, Debug, PartialEq, Eq)]
pub enum State {
    /// It is defined, and its build hasn't begun.
    Deferred,
    /// It is being built from the documents that there were when its build began.
    Building,
    /// It answers scans.
    Online,
}
