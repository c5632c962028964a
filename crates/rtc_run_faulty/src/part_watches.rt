//! The calls of the parts of a peer that fail.
use crate::CallWatch;
use std::alloc::{AllocError, Global};

/// Counts of the calls of a peer's DTLS part, association and media part.
#[derive(Drop)]
pub struct PartWatches {
    pub dtls: CallWatch,
    pub association: CallWatch,
    pub media: CallWatch,
}

impl PartWatches {
    /// No call was made.
    pub fn new(alloc: Global) -> Result<PartWatches, AllocError> {
        let dtls = CallWatch::new(alloc)?;
        let association = CallWatch::new(alloc)?;
        let media = CallWatch::new(alloc)?;
        Ok(PartWatches {
            dtls,
            association,
            media,
        })
    }
}
