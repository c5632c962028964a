//! Changes that are staged.
ghost use Rattle.std.specs.Prelude.{◌≡◌, is_some};
ghost use Rattle.rtc_change.specs.PendingOffer.{restart_of, new_mid as NewMid, new_row as NewRow};
ghost use Rattle.rtc_change.specs.PendingOffer.{is_offered as IsOffered, is_add_app as IsAddApp};

use crate::AddMedia;
use rtc_sdp_values::{Direction, IceCreds, LineRow, Mid};
use rtc_wire::{ChannelConfig, ChannelId, TryCopy};
use std::alloc::AllocError;

/// A change of a peer's lines that is staged and not yet negotiated.
#[derive(Debug, PartialEq, Eq, Drop)]
pub enum Change {
    AddMedia(AddMedia),
    /// The m-line of data channels.
    AddApp(Mid),
    /// A data channel, by its number, with what it is to be opened with.
    AddChannel(ChannelId, ChannelConfig),
    /// The line of a mid now has this direction; it is inactive if it was stopped.
    Direction(Mid, Direction),
    /// New local credentials of ICE, and whether the local candidates are kept (RFC 8839, section 4.4.1.1.1).
    IceRestart(IceCreds, bool),
}

impl TryCopy for Change {
    fn copy(&self) -> Result<Change, AllocError> {
        match self {
            Change::AddMedia(media) => Ok(Change::AddMedia(media.copy()?)),
            Change::AddApp(mid) => Ok(Change::AddApp(*mid)),
            Change::AddChannel(id, config) => Ok(Change::AddChannel(*id, config.copy()?)),
            Change::Direction(mid, dir) => Ok(Change::Direction(*mid, *dir)),
            Change::IceRestart(creds, keeps) => Ok(Change::IceRestart(creds.copy()?, *keeps)),
        }
    }
}

impl Change {
    /// The mid of the line that it adds, if it adds one.
    pub fn new_mid(&self) -> Option<Mid>
        ensures { result ≡ NewMid self.now }
    {
        match self {
            Change::AddMedia(media) => Some(media.mid),
            Change::AddApp(mid) => Some(*mid),
            Change::AddChannel(_, _) | Change::Direction(_, _) | Change::IceRestart(_, _) => None,
        }
    }

    /// The row of the line that it adds, at a place, if it adds one.
    pub fn new_row(&self, place: u32) -> Option<LineRow>
        ensures { result ≡ NewRow place self.now }
    {
        match self {
            Change::AddMedia(media) => Some(LineRow::Media {
                place,
                mid: media.mid,
                kind: media.kind,
                dir: media.dir,
                stopped: false,
                remote_created: false,
            }),
            Change::AddApp(mid) => Some(LineRow::App { place, mid: *mid }),
            Change::AddChannel(_, _) | Change::Direction(_, _) | Change::IceRestart(_, _) => None,
        }
    }

    /// Whether an offer says it: a channel alone makes no offer.
    pub fn is_offered(&self) -> bool
        ensures { result ≡ IsOffered self.now }
    {
        match self {
            Change::AddMedia(_)
            | Change::AddApp(_)
            | Change::Direction(_, _)
            | Change::IceRestart(_, _) => true,
            Change::AddChannel(_, _) => false,
        }
    }

    /// Whether it restarts ICE.
    pub fn is_restart(&self) -> bool
        ensures { result ≡ is_some (restart_of self.now) }
    {
        match self {
            Change::IceRestart(_, _) => true,
            Change::AddMedia(_)
            | Change::AddApp(_)
            | Change::AddChannel(_, _)
            | Change::Direction(_, _) => false,
        }
    }

    /// Whether it adds the m-line of data channels.
    pub fn is_add_app(&self) -> bool
        ensures { result ≡ IsAddApp self.now }
    {
        match self {
            Change::AddApp(_) => true,
            Change::AddMedia(_)
            | Change::AddChannel(_, _)
            | Change::Direction(_, _)
            | Change::IceRestart(_, _) => false,
        }
    }
}
