//! What is written is read back, and ends no line: laws over the definitions, which take no time at all.
ghost use Rattle.std.specs.Prelude.{◌≡◌, ◌≢◌, ◌<◌, ◌≤◌, ◌++◌, [], ℕ, List, Some, None, length};
ghost use Rattle.rtc_wire_text.specs.Cuts.{Lacks};
ghost use Rattle.rtc_sdp_values.specs.declared.extension.Extension.{Extension};
ghost use Rattle.rtc_sdp_values.specs.declared.msid.Msid.{Msid};
ghost use Rattle.rtc_sdp_values.specs.declared.simulcast.Simulcast.{Simulcast};
ghost use Rattle.rtc_sdp_attributes.specs.declared.rid_direction.RidDirection.{RidDirection};
ghost use Rattle.rtc_sdp_attributes.specs.AttributeForms as form;
ghost use Rattle.rtc_sdp_attributes.specs.AttributeTexts.{
  rtpmap_text,
  fmtp_text,
  apt_text,
  red_text,
  extmap_text,
  msid_text,
  rid_text,
  rids_in,
  simulcast_text,
  ssrc_name_text,
  ssrc_msid_text,
  ssrc_pair_text,
};
ghost use Rattle.rtc_sdp_attributes.specs.PlainValues.{IsPlainRtpmap, IsPlainMsid, IsPlainRid, IsPlainList};

/// A codec is read back.
pub fn rtpmaps_read_back()
    ensures again { (pt : ℕ) (codec : List ℕ) (clock channels : ℕ) → IsPlainRtpmap pt codec clock channels
        → form.rtpmap (rtpmap_text pt codec clock channels)
        ≡ Some (record { pt = record { 0 = pt }; codec = codec; clock = clock; channels = channels }) }
    ensures one_line { (byte : ℕ) → byte < 32 → (pt : ℕ) (codec : List ℕ) (clock channels : ℕ)
        → IsPlainRtpmap pt codec clock channels → Lacks byte (rtpmap_text pt codec clock channels) }
{}

/// Parameters are read back, and what a retransmission and redundant packets name as theirs.
pub fn fmtps_read_back()
    ensures again { (pt : ℕ) (text : List ℕ) → pt ≤ 127 → 0 < length text → form.fmtp (fmtp_text pt text)
        ≡ Some (record { pt = record { 0 = pt }; text = text }) }
    ensures apt { (pt : ℕ) → pt ≤ 127 → form.apt (apt_text pt) ≡ Some pt }
    ensures red { (pt : ℕ) → pt ≤ 127 → form.red_primary (red_text pt) ≡ Some pt }
    ensures one_line { (byte : ℕ) → byte < 32 → (pt : ℕ) (text : List ℕ) → pt ≤ 127 → Lacks byte text → Lacks byte (fmtp_text pt text) }
{}

/// A mapped header extension is read back.
pub fn extmaps_read_back()
    ensures again { (id : ℕ) (extension : Extension) → 0 < id → id ≤ 255 → form.extmap (extmap_text id extension) ≡ Some (id, extension) }
    ensures one_line { (byte : ℕ) → byte < 32 → (id : ℕ) (extension : Extension) → id ≤ 255 → Lacks byte (extmap_text id extension) }
{}

/// A stream and a track are read back.
pub fn msids_read_back()
    ensures again { (msid : Msid) → IsPlainMsid msid → form.msid (msid_text msid) ≡ Some msid }
    ensures one_line { (byte : ℕ) → byte < 32 → (msid : Msid) → IsPlainMsid msid → Lacks byte (msid_text msid) }
{}

/// A restricted layer is read back.
pub fn rids_read_back()
    ensures { (rid : List ℕ) (direction : RidDirection) (attributes : List (List ℕ × List ℕ)) → IsPlainRid rid attributes
        → form.rid (rid_text rid direction attributes) ≡ Some (record { rid = rid; direction = direction; attributes = attributes }) }
{}

/// The names of layers, at least one, are read back.
pub fn simulcasts_read_back()
    ensures again { (simulcast : Simulcast) → IsPlainList (rids_in simulcast.send) → IsPlainList (rids_in simulcast.recv)
        → (rids_in simulcast.send ++ rids_in simulcast.recv ≢ []) → form.simulcast (simulcast_text simulcast)
        ≡ Some (record { send = rids_in simulcast.send; recv = rids_in simulcast.recv }) }
    ensures one_line { (byte : ℕ) → byte < 32 → (simulcast : Simulcast) → IsPlainList (rids_in simulcast.send)
        → IsPlainList (rids_in simulcast.recv) → Lacks byte (simulcast_text simulcast) }
{}

/// Names and pairs of SSRCs are read back, and the stream of an SSRC is not taken for a name.
pub fn ssrcs_read_back()
    ensures name { (ssrc : ℕ) (cname : List ℕ) → ssrc ≤ 4294967295 → 0 < length cname → form.source (ssrc_name_text ssrc cname)
        ≡ Some (record { ssrc = record { 0 = ssrc }; cname = cname }) }
    ensures stream { (ssrc : ℕ) (stream track : List ℕ) → ssrc ≤ 4294967295 → form.source (ssrc_msid_text ssrc stream track) ≡ None }
    ensures pair { (ssrc rtx : ℕ) → ssrc ≤ 4294967295 → rtx ≤ 4294967295 → form.source_pair_form (ssrc_pair_text ssrc rtx)
        ≡ Some (record { 0 = ssrc }, record { 0 = rtx }) }
{}
