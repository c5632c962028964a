//! Laws of the header extensions of offers, if added lines take the numbers of the session (RFC 8843, section 12).
ghost use Rattle.std.specs.Prelude.{◌≡◌, ℕ, true, List, length, Option};
ghost use Rattle.std.specs.List.{AllByRecursion};
ghost use Rattle.rtc_peer_core.specs.MadeSdp.{held_told, added_told, offered_formats, offer_sdp};
ghost use Rattle.rtc_peer_core.specs.SessionExtensions.{HaveNumbersApart, HaveOneMeaning, told_extensions, line_extensions};
ghost use Rattle.rtc_peer_core.specs.Stance.{Stance};

/// No number is repeated on a line that an offer adds.
pub fn added_lines_repeat_no_number()
    ensures { (s : Stance) → s.formats.session_ids ≡ true
        → AllByRecursion (λ told. HaveNumbersApart told.media.exts) (added_told (offered_formats s) (length s.lines) s.staged) }
{}

/// If each number denotes one extension on the lines of a session, so it does in the offer that adds lines.
pub fn offers_keep_one_meaning()
    ensures { (s : Stance) (init : Option (List ℕ)) → s.formats.session_ids ≡ true → HaveOneMeaning (told_extensions (held_told s))
        → HaveOneMeaning (line_extensions (offer_sdp s init).lines) }
{}
