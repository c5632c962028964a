//! What the part sends, over all that may be done to it.
ghost use Rattle.std.specs.Prelude.{◌≡◌, List};
ghost use Rattle.rtc_parts.specs.MediaActs.{MediaAct, MediaMoved};
ghost use Rattle.rtc_plain_media.specs.Feedback.{EachBegins};
ghost use Rattle.rtc_plain_media.specs.MediaContents.{MediaContents, fresh_media};
ghost use Rattle.rtc_plain_media.specs.PlainMediaMeaning.{plain_media_meaning};
ghost use Rattle.rtc_plain_media.specs.Sendings.{datagrams_taken};

/// Each datagram that is taken of a part, since it was made, begins with the byte 80.
pub fn datagrams_begin_with_80()
    ensures { (p q : MediaContents) (acts : List MediaAct) → p ≡ fresh_media → MediaMoved plain_media_meaning p acts q
        → EachBegins (datagrams_taken acts) }
{}
