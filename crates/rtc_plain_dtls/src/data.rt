//! Application data is received and sent as it was given.
ghost use Rattle.std.specs.Prelude.{◌≡◌, List, ℕ, ◌∷◌, ◌++◌};
ghost use Rattle.rtc_parts.specs.Among.{Member};
ghost use Rattle.rtc_parts.specs.DtlsActs.{DtlsAct, DtlsMoved, Taken, Got};
ghost use Rattle.rtc_parts.specs.DtlsWords.{dtls_given, dtls_sent};
ghost use Rattle.rtc_plain_dtls.specs.Frames.{data_packet};
ghost use Rattle.rtc_plain_dtls.specs.Contents.{DtlsContents, fresh_dtls};
ghost use Rattle.rtc_plain_dtls.specs.PlainMeaning.{plain_dtls};

/// From the first day on, application data that a plain part gives was received in an earlier packet. Application data
/// in a packet that it sends was given to it before. This holds whatever is lost, repeated or forged.
pub fn data_is_faithful()
    ensures got { (p q : DtlsContents) (before after : List DtlsAct) (bytes : List ℕ) → p ≡ fresh_dtls
        → DtlsMoved plain_dtls p (before ++ Got bytes ∷ after) q → Member (data_packet bytes) (dtls_given before) }
    ensures taken { (p q : DtlsContents) (before after : List DtlsAct) (bytes : List ℕ) → p ≡ fresh_dtls
        → DtlsMoved plain_dtls p (before ++ Taken (data_packet bytes) ∷ after) q → Member bytes (dtls_sent before) }
{}
