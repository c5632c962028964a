//! Limits of an association.

/// Limits of an association, in bytes.
#[derive(Clone, Copy, Debug, PartialEq, Eq)]
pub struct Limits {
    /// The greatest packet.
    pub max_payload: usize,
    /// The longest message that this end takes.
    pub local_max_message: u32,
    /// The longest message that the other end takes.
    pub max_send: u32,
}
