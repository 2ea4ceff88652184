// A place in the journals.

/// A place in the journals of a world, with its clock, to which the world can be taken back.
#[derive(Clone, Copy, Debug)]
pub struct Mark {
    pub(crate) funds: u64,
    pub(crate) ledger: u64,
    pub(crate) store: u64,
    pub(crate) level: u32,
    pub(crate) moment: i64,
}
