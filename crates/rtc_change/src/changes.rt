//! Lists of staged changes.
ghost use Rattle.std.specs.Prelude.{◌≡◌, ◌+◌, ◌++◌, [], ◌∷◌, ◌<◌, ◌≤◌, ◌^◌, ◌-◌, IfOk, OnOk, OnErr, length, option_map, reverse};
ghost use Rattle.std.specs.Option.{option_to_list};
ghost use Rattle.std.specs.Vec.{vec_len, vec_capacity};
ghost use Rattle.rtc_change.specs.PendingOffer.{
  added_mids,
  added_rows,
  adds_mid,
  contains_add_app as ContainsAddApp,
  new_channel,
  new_channels,
  staged_restart,
  without_channels,
};

use crate::Change;
use rtc_sdp_values::{IceCreds, LineRow, Mid};
use rtc_wire::{ChannelConfig, ChannelId, Seq, TryCopy};
use std::alloc::{AllocError, Global};
use std::mem;

/// Staged changes, in the order in which they were asked for.
#[derive(Debug, PartialEq, Eq, Drop)]
pub struct Changes(pub Seq<Change>);

/// How many lines these changes add.
pub fn count_added(changes: &[Change]) -> usize
    ensures { result ≡ length (added_mids changes.now) }
{
    let mut count = 0;
    for change in changes {
        if change.new_mid().is_some() {
            count += 1;
        }
    }
    count
}

/// Whether one of these changes adds a line of this mid.
pub fn is_added(changes: &[Change], mid: Mid) -> bool
    ensures { result ≡ adds_mid mid changes.now }
{
    for change in changes {
        let Some(own) = change.new_mid() else {
            continue;
        };
        if own == mid {
            return true;
        }
    }
    false
}

/// The restart of ICE among these changes.
pub fn find_restart(changes: &[Change]) -> Option<(&IceCreds, bool)>
    ensures { option_map (λ restart. (restart.0.now, restart.1)) result ≡ staged_restart changes.now }
{
    for change in changes {
        if let Change::IceRestart(creds, keeps) = change {
            return Some((creds, *keeps));
        }
    }
    None
}

// Puts a change behind those of its sort: channels apart from the others.
fn put_apart(
    change: Change,
    channels: &mut Vec<(ChannelId, ChannelConfig)>,
    others: &mut Vec<Change>,
)
    requires channels_room { vec_len channels.old < vec_capacity channels.old }
    requires others_room { vec_len others.old < vec_capacity others.old }
    ensures channels { channels.new.items ≡ channels.old.items ++ option_to_list (new_channel change) }
    ensures others { others.new.items ≡ others.old.items ++ without_channels (change ∷ []) }
    ensures len { vec_len channels.new + vec_len others.new ≡ vec_len channels.old + vec_len others.old + 1 }
    ensures channels_capacity { vec_capacity channels.new ≡ vec_capacity channels.old }
    ensures others_capacity { vec_capacity others.new ≡ vec_capacity others.old }
{
    match change {
        Change::AddChannel(id, config) => channels.push_reserved((id, config)),
        Change::AddMedia(media) => others.push_reserved(Change::AddMedia(media)),
        Change::AddApp(mid) => others.push_reserved(Change::AddApp(mid)),
        Change::Direction(mid, dir) => others.push_reserved(Change::Direction(mid, dir)),
        Change::IceRestart(creds, keeps) => others.push_reserved(Change::IceRestart(creds, keeps)),
    }
}

impl Changes {
    /// Whether one of them adds a line of this mid.
    pub fn has_mid(&self, mid: Mid) -> bool
        ensures { result ≡ adds_mid mid self.now.0 }
    {
        is_added(self.0.as_slice(), mid)
    }

    /// Whether one of them adds the m-line of data channels.
    pub fn contains_add_app(&self) -> bool
        ensures { result ≡ ContainsAddApp self.now.0 }
    {
        for change in self.0.as_slice() {
            if change.is_add_app() {
                return true;
            }
        }
        false
    }

    /// The restart of ICE among them: the new credentials, and whether the local candidates are kept.
    pub fn restart(&self) -> Option<(&IceCreds, bool)>
        ensures { option_map (λ restart. (restart.0.now, restart.1)) result ≡ staged_restart self.now.0 }
    {
        find_restart(self.0.as_slice())
    }

    // The allocator of the list.
    fn allocator(&self) -> Global {
        let nothing = self.0.empty_string();
        *nothing.allocator()
    }

    #[tactic(auto, using(crate::proofs::AddedLemmas::channels_step, crate::proofs::AddedLemmas::others_step))]
    /// Takes the channels out, the last first. The other changes stay in order.
    pub fn take_new_channels(&mut self) -> Result<Vec<(ChannelId, ChannelConfig)>, AllocError>
        ensures channels { IfOk result (λ channels. channels.items ≡ reverse (new_channels self.old.0)) }
        ensures others { OnOk result (self.new.0 ≡ without_channels self.old.0) }
        ensures err { OnErr result (self.new ≡ self.old) }
    {
        let alloc = self.allocator();
        let mut channels = Vec::with_capacity(alloc, self.0.len())?;
        let mut others = Vec::with_capacity(alloc, self.0.len())?;
        let mut staged = mem::replace(&mut self.0, Seq::empty(alloc)).into_vec();
        while let Some(change) = staged.pop() {
            put_apart(change, &mut channels, &mut others);
        }
        others.reverse();
        self.0 = Seq::new(others);
        Ok(channels)
    }

    /// The rows of the lines that they add, at places from `index_start` on.
    pub fn as_new_medias(&self, index_start: u32) -> Result<Vec<LineRow>, AllocError>
        requires { index_start + length (added_mids self.now.0) < 2 ^ 32 }
        ensures rows { IfOk result (λ rows. rows.items ≡ added_rows index_start self.now.0) }
        ensures count { IfOk result (λ rows. length rows.items ≡ length (added_mids self.now.0)) }
    {
        let mut rows = Vec::new(self.allocator());
        let mut place = index_start;
        for change in self.0.as_slice() {
            let Some(row) = change.new_row(place) else {
                continue;
            };
            rows.push(row)?;
            place += 1;
        }
        Ok(rows)
    }
}

impl TryCopy for Changes {
    fn copy(&self) -> Result<Changes, AllocError> {
        let changes = self.0.copy()?;
        Ok(Changes(changes))
    }
}
