//! Refusals of STUN readers.
use thiserror::Error;

/// Why bytes of the STUN kind are refused.
#[derive(Debug, PartialEq, Eq, Drop, Error)]
pub enum StunError {
    #[error("not a STUN message")]
    NotStun,
}
