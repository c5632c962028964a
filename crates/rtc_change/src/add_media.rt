//! Media lines that are staged.
use rtc_sdp_values::{Direction, MediaKind, Mid, Msid, Simulcast, Ssrc};
use rtc_wire::{Seq, Text, TryCopy};
use std::alloc::AllocError;

/// A media line that an offer is to add.
#[derive(Debug, PartialEq, Eq, Drop)]
pub struct AddMedia {
    pub mid: Mid,
    pub cname: Text,
    pub msid: Msid,
    pub kind: MediaKind,
    pub dir: Direction,
    /// Each SSRC, with its RTX SSRC.
    pub ssrcs: Seq<(Ssrc, Option<Ssrc>)>,
    pub simulcast: Option<Simulcast>,
}

impl TryCopy for AddMedia {
    fn copy(&self) -> Result<AddMedia, AllocError> {
        let cname = self.cname.copy()?;
        let msid = self.msid.copy()?;
        let ssrcs = self.ssrcs.copy()?;
        let simulcast = self.simulcast.copy()?;
        Ok(AddMedia {
            mid: self.mid,
            cname,
            msid,
            kind: self.kind,
            dir: self.dir,
            ssrcs,
            simulcast,
        })
    }
}
