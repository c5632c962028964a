//! What a `rid` attribute says.
use crate::RidDirection;
use rtc_sdp_values::Rid;
use rtc_wire::{Seq, Text, TryCopy};
use std::alloc::AllocError;

/// The restrictions that a `rid` attribute puts on a layer (RFC 8851, section 4).
#[derive(Debug, PartialEq, Eq, Drop)]
pub struct RidLine {
    pub rid: Rid,
    pub direction: RidDirection,
    /// Names and values, in the order of the text.
    pub attributes: Seq<(Text, Text)>,
}

impl TryCopy for RidLine {
    fn copy(&self) -> Result<RidLine, AllocError> {
        let attributes = self.attributes.copy()?;
        Ok(RidLine {
            rid: self.rid,
            direction: self.direction,
            attributes,
        })
    }
}
