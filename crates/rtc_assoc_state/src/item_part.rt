//! What an item carries.
ghost use Rattle.std.specs.Prelude.{◌≡◌};
ghost use Rattle.rtc_assoc_state.specs.Packets.{part_byte, part_of};

/// What an item carries.
#[derive(Clone, Copy, Debug, PartialEq, Eq)]
pub enum ItemPart {
    /// A piece of a message, with more to follow.
    More,
    /// The last piece of a message.
    Last,
    /// The close of the stream.
    Close,
}

impl ItemPart {
    /// The part that a byte says, if it says one.
    pub fn of(byte: u8) -> Option<ItemPart>
        ensures { result ≡ part_of byte }
    {
        match byte {
            0 => Some(ItemPart::More),
            1 => Some(ItemPart::Last),
            2 => Some(ItemPart::Close),
            _ => None,
        }
    }

    /// The byte that says the part.
    pub fn byte(self) -> u8
        ensures { result ≡ part_byte self }
    {
        match self {
            ItemPart::More => 0,
            ItemPart::Last => 1,
            ItemPart::Close => 2,
        }
    }
}
