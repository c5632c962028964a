//! Statistics of a candidate.
use rtc_wire::Addr;

/// One end of the selected candidate pair.
#[derive(Clone, Copy, Debug, PartialEq, Eq)]
pub struct CandidateStats {
    pub addr: Addr,
}
