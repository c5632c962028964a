//! Names of streams and tracks.
use rtc_wire::{Text, TryCopy};
use std::alloc::AllocError;

/// The stream and the track that a media line belongs to (RFC 8830, section 2).
#[derive(Debug, PartialEq, Eq, Drop)]
pub struct Msid {
    pub stream_id: Text,
    pub track_id: Text,
}

impl TryCopy for Msid {
    fn copy(&self) -> Result<Msid, AllocError> {
        let stream_id = self.stream_id.copy()?;
        let track_id = self.track_id.copy()?;
        Ok(Msid {
            stream_id,
            track_id,
        })
    }
}
