//! The numbers of a stream's lanes.

/// The numbers of the two lanes of a stream among those of all streams: each numbers four workers.
#[derive(Clone, Copy, Debug, Drop)]
pub(crate) struct LaneNumbers {
    /// Of the lane of items: the stream's place among the lanes with traffic.
    pub(crate) items: u32,
    /// Of the lane of acknowledgements: after all lanes of items.
    pub(crate) acks: u32,
}
