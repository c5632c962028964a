//! Kinds of candidates.
use rtc_wire::TryCopy;
use std::alloc::AllocError;

/// How a candidate's address was found (RFC 8839, section 5.1).
#[derive(Clone, Copy, Debug, PartialEq, Eq)]
pub enum CandidateKind {
    Host,
    ServerReflexive,
    PeerReflexive,
    Relayed,
}

impl TryCopy for CandidateKind {
    fn copy(&self) -> Result<CandidateKind, AllocError> {
        Ok(*self)
    }
}
