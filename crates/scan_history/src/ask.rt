use scan_coord::Demand;

/// What a request asks of its answer.
#[derive(Drop)]
pub struct Ask {
    pub demand: Demand,
    /// Whether it waits for a publication that covers the demand.
    pub wait: bool,
}
