//! Members.
ghost use Rattle.std.specs.Prelude.{◌≡◌, ◌≤◌, ◌+◌, [], not, nat_lt, length, drop, OnOk, Option, ℕ};
ghost use Rattle.rtc_room_laws.specs.Members.{gone_member, hearing_member, is_for_member, new_member, put_out_member, with_items};

use rtc_room_laws::Item;
use rtc_wire::{ChannelId, copy_all};
use std::alloc::{AllocError, Global};
use std::marker::Model;

// As many items wait for a member at most.
const QUEUE_LIMIT: usize = 1024;

/// A member of a room, without its pair.
#[derive(Drop)]
pub struct Member {
    number: u32,
    room: u32,
    has_left: bool,
    is_put_out: bool,
    line: Option<ChannelId>,
    queue: Vec<Item>,
}

impl Model for Member {
    ghost use Rattle.std.specs.Prelude.{◌≤◌, length};
    ghost use Rattle.rtc_room_laws.specs.Members.{MemberState};

    ghost Value = { MemberState };

    ghost view = { λ member. record {
      number = member.number;
      room = member.room;
      has_left = member.has_left;
      is_put_out = member.is_put_out;
      line = member.line;
      queue = member.queue.items;
    } };

    ghost invariant = { λ member. length member.queue.items ≤ 1024 };
}

impl Member {
    /// A member that just joined.
    pub fn new(alloc: Global, number: u32, room: u32) -> Member
        ensures { result ≡ new_member number room }
    {
        Member {
            number,
            room,
            has_left: false,
            is_put_out: false,
            line: None,
            queue: Vec::new(alloc),
        }
    }

    /// Its room.
    pub fn room(&self) -> u32
        ensures { result ≡ self.now.room }
    {
        self.room
    }

    /// Whether it has not left.
    pub fn is_here(&self) -> bool
        ensures { result ≡ not self.now.has_left }
    {
        !self.has_left
    }

    /// Whether it was put out.
    pub fn is_put_out(&self) -> bool
        ensures { result ≡ self.now.is_put_out }
    {
        self.is_put_out
    }

    /// The number of its line at the hub, once it has one.
    pub fn line(&self) -> Option<ChannelId>
        ensures { result ≡ self.now.line }
    {
        self.line
    }

    /// What waits for it.
    pub fn queue(&self) -> &[Item]
        ensures items { result.now ≡ self.now.queue }
        ensures few { length result.now ≤ 1024 }
    {
        self.queue.as_slice()
    }

    /// Sets its line.
    pub fn set_line(&mut self, line: Option<ChannelId>)
        ensures { self.new ≡ record self.old { line = line } }
    {
        self.line = line;
    }

    /// It leaves, and what waits is dropped.
    pub fn leave(&mut self)
        ensures { self.new ≡ gone_member self.old }
    {
        self.has_left = true;
        self.queue.clear();
    }

    /// It is put out, and what waits is dropped.
    pub fn put_out(&mut self)
        ensures { self.new ≡ put_out_member self.old }
    {
        self.is_put_out = true;
        self.queue.clear();
    }

    /// The first so many items wait no more.
    pub fn take_off(&mut self, count: usize) -> Result<(), AllocError>
        requires { count ≤ length self.old.queue }
        ensures { OnOk result (self.new ≡ record self.old { queue = drop count self.old.queue }) }
    {
        let left = self.queue.split_off(count)?;
        self.queue = left;
        Ok(())
    }

    fn is_for(&self, sender: u32, room: u32) -> bool
        ensures { result ≡ is_for_member sender room self.now }
    {
        self.number != sender && self.room == room && !self.has_left && !self.is_put_out
    }

    // Items wait for it, unless these are too many.
    fn add(&mut self, items: &[Item]) -> Result<(), AllocError>
        ensures { OnOk result (self.new ≡ with_items items.now self.old) }
    {
        if self.queue.len() + items.len() > QUEUE_LIMIT {
            self.put_out();
            return Ok(());
        }
        let mut copies = copy_all(*self.queue.allocator(), items)?;
        self.queue.append(&mut copies)
    }

    /// Items of a sender in a room wait for it, if they are for it.
    pub fn hear(&mut self, sender: u32, room: u32, items: &[Item]) -> Result<(), AllocError>
        ensures { OnOk result (self.new ≡ hearing_member sender room items.now self.old) }
    {
        if self.is_for(sender, room) {
            self.add(items)
        } else {
            Ok(())
        }
    }
}
