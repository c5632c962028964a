//! What the datagrams of an agent begin with.
ghost use Rattle.std.specs.Prelude.{◌≡◌, List};
ghost use Rattle.rtc_wire.specs.declared.transmit.Transmit.{Transmit};
ghost use Rattle.rtc_parts.specs.Among.{Member};
ghost use Rattle.rtc_parts.specs.IceActs.{IceAct, IceMoved};
ghost use Rattle.rtc_parts.specs.IceWords.{ice_taken};
ghost use Rattle.rtc_plain_ice.specs.Contents.{IceContents, fresh_ice};
ghost use Rattle.rtc_plain_ice.specs.Datagrams.{BeginsBelowTwo};
ghost use Rattle.rtc_plain_ice.specs.PlainMeaning.{plain_ice};

/// Whatever is done to a plain agent from the first day on, each datagram that it gives begins with a byte below 2.
pub fn datagrams_begin_below_two()
    ensures { (p q : IceContents) (acts : List IceAct) (t : Transmit) → p ≡ fresh_ice → IceMoved plain_ice p acts q
        → Member t (ice_taken acts) → BeginsBelowTwo t.contents }
{}
