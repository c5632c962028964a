//! The layers of a media line.
ghost use Rattle.std.specs.Prelude.{◌≡◌, IfOk};

use crate::SimulcastLayer;
use rtc_wire::{Seq, TryCopy};
use std::alloc::AllocError;

/// The layers that a media line sends and receives (RFC 8853, section 5.1).
#[derive(Debug, PartialEq, Eq, Drop)]
pub struct Simulcast {
    pub send: Seq<SimulcastLayer>,
    pub recv: Seq<SimulcastLayer>,
}

impl Simulcast {
    /// The layers as the other end sees them: what is sent here is received there.
    pub fn invert(&self) -> Result<Simulcast, AllocError>
        ensures { IfOk result (λ made. made ≡ record { send = self.now.recv; recv = self.now.send }) }
    {
        let send = self.recv.copy()?;
        let recv = self.send.copy()?;
        Ok(Simulcast { send, recv })
    }
}

impl TryCopy for Simulcast {
    fn copy(&self) -> Result<Simulcast, AllocError> {
        let send = self.send.copy()?;
        let recv = self.recv.copy()?;
        Ok(Simulcast { send, recv })
    }
}
