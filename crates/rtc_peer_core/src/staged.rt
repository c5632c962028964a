//! Changes that are staged.
ghost use Rattle.std.specs.Prelude.{◌≡◌, ◌≢◌, ◌↔◌, ◌+◌, ◌<◌, ◌-◌, ◌^◌, ◌||◌, [], ◌∷◌, ◌++◌, ◌≤◌, false, true};
ghost use Rattle.std.specs.Prelude.{filter, length, vec_len, vec_capacity, IfOk, OnOk, OnErr, IsTrue};
ghost use Rattle.rtc_change.specs.declared.change.Change.TheVariants.{AddMedia as MediaAdded, Direction as DirectionSet};
ghost use Rattle.rtc_change.specs.PendingOffer.{added_mids, adds_mid, contains_add_app};
ghost use Rattle.rtc_parts.specs.Draws.{Later};
ghost use Rattle.rtc_peer_core.specs.Names.{is_held, next_mid};
ghost use Rattle.rtc_peer_core.specs.Staging.{StagesChannel, is_kept_by_restart, with_restart};

use crate::drawing::{count_lines, draw_mid, lacks_app};
use rtc_change::{AddMedia, Change, Changes, Lines};
use rtc_channels::{ChannelError, ChannelHandler};
use rtc_parts::Ids;
use rtc_sdp_values::{Direction, IceCreds, Mid};
use rtc_wire::{ChannelConfig, ChannelId, Seq};
use std::alloc::{AllocError, Global};
use std::collections::BTreeSet;
use std::marker::Model;
use std::mem;

/// The changes of a peer that are staged and not yet applied, in the order in which they were asked for.
///
/// A contract sees them as a list. The lines that they add are counted, and found by mid without a walk over the list.
pub struct Staged {
    changes: Vec<Change>,
    // The mids of the media lines that they add.
    mids: BTreeSet<Mid>,
    // The mid of the m-line of data channels that they add.
    app: Option<Mid>,
    // How many lines they add.
    count: usize,
}

impl Model for Staged {
    ghost use Rattle.std.specs.Prelude.{List};
    ghost use Rattle.rtc_change.specs.declared.change.Change.{Change};
    ghost use Rattle.rtc_peer_core.specs.StagedIndex.{IsIndexed};

    ghost Value = { List Change };

    ghost view = { λ staged. staged.changes.items };

    ghost invariant = { λ staged. IsIndexed staged.changes.items staged.mids staged.app staged.count };
}

// Puts the changes behind others, but for restarts of ICE.
fn move_kept(all: &mut Vec<Change>, changes: Vec<Change>)
    requires { vec_len all.old + vec_len changes < vec_capacity all.old }
    ensures items { all.new.items ≡ all.old.items ++ filter is_kept_by_restart changes.items }
    ensures len { vec_len all.new ≤ vec_len all.old + vec_len changes }
    ensures capacity { vec_capacity all.new ≡ vec_capacity all.old }
{
    for change in changes {
        if !change.is_restart() {
            all.push_reserved(change);
        }
    }
}

// Written out, so that the proof of what owns the changes sees one call and not the drop of each field.
impl Drop for Staged {
    fn drop(self) {
        let Staged {
            changes: _changes,
            mids: _mids,
            app: _app,
            count: _count,
        } = self;
    }
}

impl Staged {
    /// Nothing is staged.
    pub fn new(alloc: Global) -> Staged
        ensures { result ≡ [] }
    {
        Staged {
            changes: Vec::new(alloc),
            mids: BTreeSet::new(alloc),
            app: None,
            count: 0,
        }
    }

    /// The changes, lent.
    pub fn as_slice(&self) -> &[Change]
        ensures { result.now ≡ self.now }
    {
        self.changes.as_slice()
    }

    /// Whether nothing is staged.
    pub fn is_empty(&self) -> bool
        ensures { IsTrue result ↔ (self.now ≡ []) }
    {
        self.changes.is_empty()
    }

    /// How many lines they add.
    pub fn count_added(&self) -> usize
        ensures { result ≡ length (added_mids self.now) }
    {
        self.count
    }

    /// Whether they add the m-line of data channels.
    pub fn contains_add_app(&self) -> bool
        ensures { result ≡ contains_add_app self.now }
    {
        self.app.is_some()
    }

    /// Lets every change go.
    pub fn clear(&mut self)
        ensures { self.new ≡ [] }
    {
        self.changes.clear();
        self.mids.clear();
        self.app = None;
        self.count = 0;
    }

    /// The changes; none is staged afterwards.
    pub fn take(&mut self, alloc: Global) -> Changes
        ensures changes { result.0 ≡ self.old }
        ensures none { self.new ≡ [] }
    {
        let changes = mem::replace(&mut self.changes, Vec::new(alloc));
        self.mids.clear();
        self.app = None;
        self.count = 0;
        Changes(Seq::new(changes))
    }

    /// Draws a mid that no row and no staged line has.
    #[tactic(auto, using(rtc_parts::proofs::LaterLemmas::later_none, rtc_parts::proofs::LaterLemmas::later_once))]
    pub fn draw_mid<N: Ids>(&self, ids: &mut N, lines: &Lines) -> Result<Mid, AllocError>
        ensures mid { IfOk result (λ mid. mid ≡ next_mid N.ids lines.now self.now ids.old) }
        ensures free { IfOk result (λ mid. is_held lines.now self.now mid ≡ false) }
        ensures after { OnOk result (ids.new ≡ N.ids.after ids.old) }
        ensures err { OnErr result (ids.new ≡ ids.old) }
        ensures later { Later N.ids ids.old ids.new }
    {
        let count = count_lines(lines, self.count)?;
        Ok(draw_mid(ids, lines, &self.mids, &self.app, count))
    }

    /// Stages a media line.
    pub fn push_media(&mut self, media: AddMedia) -> Result<(), AllocError>
        ensures ok { OnOk result (self.new ≡ self.old ++ MediaAdded media ∷ []) }
        ensures err { OnErr result (self.new ≡ self.old) }
    {
        let Some(count) = self.count.checked_add(1) else {
            return Err(AllocError);
        };
        self.changes.reserve(1)?;
        self.mids.insert(media.mid)?;
        self.changes.push_reserved(Change::AddMedia(media));
        self.count = count;
        Ok(())
    }

    /// Stages the direction that a line has by now.
    pub fn push_direction(&mut self, mid: Mid, dir: Direction) -> Result<(), AllocError>
        ensures ok { OnOk result (self.new ≡ self.old ++ DirectionSet mid dir ∷ []) }
        ensures err { OnErr result (self.new ≡ self.old) }
    {
        self.changes.push(Change::Direction(mid, dir))?;
        Ok(())
    }

    /// Stages a restart of ICE, in place of one that was staged.
    pub fn push_restart(
        &mut self,
        alloc: Global,
        creds: IceCreds,
        keeps: bool,
    ) -> Result<(), AllocError>
        ensures ok { OnOk result (self.new ≡ with_restart creds keeps self.old) }
        ensures err { OnErr result (self.new ≡ self.old) }
    {
        let Some(count) = self.changes.len().checked_add(1) else {
            return Err(AllocError);
        };
        let mut changes = Vec::with_capacity(alloc, count)?;
        let before = mem::replace(&mut self.changes, Vec::new(alloc));
        move_kept(&mut changes, before);
        changes.push_reserved(Change::IceRestart(creds, keeps));
        self.changes = changes;
        Ok(())
    }

    /// Makes a channel and stages it, with the m-line of data channels if neither a row nor a staged line is one.
    pub fn push_channel<N: Ids>(
        &mut self,
        ids: &mut N,
        lines: &Lines,
        channels: &mut ChannelHandler,
        config: ChannelConfig,
    ) -> Result<ChannelId, ChannelError>
        ensures { StagesChannel N.ids lines.now ids.old self.old channels.old config result ids.new self.new channels.new }
    {
        let count = count_lines(lines, self.count)?;
        self.changes.reserve(2)?;
        let id = channels.new_channel(&config)?;
        if !lacks_app(lines, &self.app) {
            self.changes.push_reserved(Change::AddChannel(id, config));
            return Ok(id);
        }
        let mid = draw_mid(ids, lines, &self.mids, &self.app, count);
        self.changes.push_reserved(Change::AddApp(mid));
        self.changes.push_reserved(Change::AddChannel(id, config));
        self.app = Some(mid);
        self.count += 1;
        Ok(id)
    }
}
