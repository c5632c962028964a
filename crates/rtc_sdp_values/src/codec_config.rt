//! The codecs of a peer.
use crate::PayloadRow;
use rtc_wire::{Seq, TryCopy};
use std::alloc::AllocError;

/// The codecs that a peer offers and takes, best first.
#[derive(Debug, PartialEq, Eq, Drop)]
pub struct CodecConfig {
    pub rows: Seq<PayloadRow>,
    /// How many packets back a redundant packet repeats.
    pub red_distances: Seq<u32>,
}

impl TryCopy for CodecConfig {
    fn copy(&self) -> Result<CodecConfig, AllocError> {
        let rows = self.rows.copy()?;
        let red_distances = self.red_distances.copy()?;
        Ok(CodecConfig {
            rows,
            red_distances,
        })
    }
}
