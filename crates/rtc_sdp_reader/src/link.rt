//! What a payload type serves.

/// A payload type, and the one whose retransmissions or redundant packets it is for, if any.
#[derive(Clone, Copy)]
pub(crate) struct Link {
    pub(crate) pt: u8,
    pub(crate) rtx_of: Option<u64>,
    pub(crate) red_of: Option<u64>,
}
