//! One layer of a simulcast.
use crate::Rid;
use rtc_wire::{Seq, Text, TryCopy};
use std::alloc::AllocError;

/// One encoding of a media line, with its restrictions (RFC 8851, section 4).
#[derive(Debug, PartialEq, Eq, Drop)]
pub struct SimulcastLayer {
    pub rid: Rid,
    /// Names and values, in the order of the text.
    pub attributes: Seq<(Text, Text)>,
}

impl TryCopy for SimulcastLayer {
    fn copy(&self) -> Result<SimulcastLayer, AllocError> {
        let attributes = self.attributes.copy()?;
        Ok(SimulcastLayer {
            rid: self.rid,
            attributes,
        })
    }
}
