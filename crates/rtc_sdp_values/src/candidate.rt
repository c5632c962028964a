//! Candidates.
ghost use Rattle.std.specs.Prelude.{◌≡◌, IfOk, codes};
ghost use Rattle.rtc_sdp_values.specs.declared.candidate_kind.CandidateKind.TheVariants.{Host};

use crate::CandidateKind;
use rtc_wire::{Addr, Protocol, Text, TryCopy};
use std::alloc::{AllocError, Global};

/// An address at which a peer may be reached (RFC 8839, section 5.1).
#[derive(Debug, PartialEq, Eq, Drop)]
pub struct Candidate {
    pub foundation: Text,
    pub component: u16,
    pub proto: Protocol,
    pub priority: u32,
    pub addr: Addr,
    pub kind: CandidateKind,
}

impl Candidate {
    /// A host candidate, with the foundation, component and priority that all host candidates have here.
    pub fn host(alloc: Global, addr: Addr, proto: Protocol) -> Result<Candidate, AllocError>
        ensures { IfOk result (λ made. made ≡ record {
          foundation = codes "1";
          component = 1;
          proto = proto;
          priority = 2130706431;
          addr = addr;
          kind = Host;
        }) }
    {
        let foundation = Text::from_str(alloc, "1")?;
        Ok(Candidate {
            foundation,
            component: 1,
            proto,
            priority: 2_130_706_431,
            addr,
            kind: CandidateKind::Host,
        })
    }
}

impl TryCopy for Candidate {
    fn copy(&self) -> Result<Candidate, AllocError> {
        let foundation = self.foundation.copy()?;
        Ok(Candidate {
            foundation,
            component: self.component,
            proto: self.proto,
            priority: self.priority,
            addr: self.addr,
            kind: self.kind,
        })
    }
}
