//! Session descriptions.
ghost use Rattle.std.specs.Prelude.{◌≡◌, ◌++◌, [], IfOk, None, OnOk, Option, option_map};
ghost use Rattle.std.specs.Option.{option_copied};
ghost use Rattle.std.specs.List.{flat_map};
ghost use Rattle.rtc_wire_text.specs.Fields.{first};
ghost use Rattle.rtc_sdp_values.specs.Sdp as spec;

use crate::consistency::{inconsistency, inconsistency_by_walks};
use crate::{Candidate, Fingerprint, IceCreds, Inconsistent, MediaLine, Mid, SdpError, Setup};
use rtc_wire::{Seq, TryCopy};
use rtc_wire_drops::{fill_next, whole};
use std::alloc::AllocError;

/// A session description (RFC 8866, section 5).
#[derive(Debug, PartialEq, Eq)]
pub struct Sdp {
    /// The number of the session, of the `o=` line.
    pub id: u64,
    /// The BUNDLE groups (RFC 8843, section 7.1).
    pub groups: Seq<Seq<Mid>>,
    pub ice_lite: bool,
    pub creds: Option<IceCreds>,
    pub fingerprint: Option<Fingerprint>,
    pub setup: Option<Setup>,
    pub lines: Seq<MediaLine>,
}

// Written out, so that the proof of what owns a session description sees one call and not the drop of each field.
impl Drop for Sdp {
    fn drop(self) {
        let Sdp {
            id: _id,
            groups: _groups,
            ice_lite: _ice_lite,
            creds: _creds,
            fingerprint: _fingerprint,
            setup: _setup,
            lines: _lines,
        } = self;
    }
}

fn line_creds(lines: &[MediaLine]) -> Option<&IceCreds>
    ensures { option_copied result ≡ first (λ line. line.creds) lines.now }
{
    for line in lines {
        if let Some(creds) = &line.creds {
            return Some(creds);
        }
    }
    None
}

fn line_fingerprint(lines: &[MediaLine]) -> Option<&Fingerprint>
    ensures { option_copied result ≡ first (λ line. line.fingerprint) lines.now }
{
    for line in lines {
        if let Some(fingerprint) = &line.fingerprint {
            return Some(fingerprint);
        }
    }
    None
}

fn line_setup(lines: &[MediaLine]) -> Option<Setup>
    ensures { result ≡ first (λ line. line.setup) lines.now }
{
    for line in lines {
        if let Some(setup) = line.setup {
            return Some(setup);
        }
    }
    None
}

fn application_line(lines: &[MediaLine]) -> Option<&MediaLine>
    ensures { option_copied result ≡ spec.application_line lines.now }
{
    for line in lines {
        if line.kind.is_application() {
            return Some(line);
        }
    }
    None
}

fn append_candidates(found: &mut Vec<Candidate>, candidates: &[Candidate]) -> Result<(), AllocError>
    ensures { OnOk result (found.new.items ≡ found.old.items ++ candidates.now) }
{
    for candidate in candidates {
        let copied = candidate.copy()?;
        found.push(copied)?;
    }
    Ok(())
}

fn append_line_candidates(found: &mut Vec<Candidate>, lines: &[MediaLine]) -> Result<(), AllocError>
    ensures { OnOk result (found.new.items ≡ found.old.items ++ flat_map (λ line. line.candidates) lines.now) }
{
    for line in lines {
        append_candidates(found, line.candidates.as_slice())?;
    }
    Ok(())
}

impl Sdp {
    /// The credentials of the session, else of the first line that has them.
    pub fn ice_creds(&self) -> Option<&IceCreds>
        ensures { option_copied result ≡ spec.creds_of self.now }
    {
        match &self.creds {
            Some(creds) => Some(creds),
            None => line_creds(self.lines.as_slice()),
        }
    }

    /// The fingerprint of the session, else of the first line that has one.
    pub fn fingerprint(&self) -> Option<&Fingerprint>
        ensures { option_copied result ≡ spec.sdp_fingerprint self.now }
    {
        match &self.fingerprint {
            Some(fingerprint) => Some(fingerprint),
            None => line_fingerprint(self.lines.as_slice()),
        }
    }

    /// The setup of the session, else of the first line that has one.
    pub fn setup(&self) -> Option<Setup>
        ensures { result ≡ spec.sdp_setup self.now }
    {
        match self.setup {
            Some(setup) => Some(setup),
            None => line_setup(self.lines.as_slice()),
        }
    }

    /// The association's chunk that the first m-line of data channels carries (draft-hancke-tsvwg-snap).
    pub fn sctp_init(&self) -> Option<&str>
        ensures { option_map (λ text. text.now) result ≡ spec.sdp_sctp_init self.now }
    {
        match application_line(self.lines.as_slice()) {
            Some(line) => match &line.sctp_init {
                Some(text) => Some(text.as_str()),
                None => None,
            },
            None => None,
        }
    }

    /// The size of messages that the first m-line of data channels allows, in bytes; 0 means any (RFC 8841, section 6).
    pub fn max_message_size(&self) -> Option<u64>
        ensures { result ≡ spec.max_message_size_of self.now }
    {
        match application_line(self.lines.as_slice()) {
            Some(line) => line.max_message_size,
            None => None,
        }
    }

    /// The candidates of all lines, in order.
    pub fn candidates(&self) -> Result<Vec<Candidate>, AllocError>
        ensures { IfOk result (λ found. found.items ≡ spec.candidates_of self.now) }
    {
        let nothing = self.lines.empty_string();
        let mut found = Vec::new(*nothing.allocator());
        let filled = append_line_candidates(&mut found, self.lines.as_slice());
        whole(found, filled)
    }

    /// Whether the mids and the BUNDLE group are consistent (RFC 8843, section 7.1).
    ///
    /// Nothing is allocated, and it takes time in the square of the lines: a peer calls `find_inconsistency`.
    pub fn assert_consistency(&self) -> Result<(), SdpError>
        ensures { result ≡ spec.refusal (spec.inconsistency self.now) }
    {
        match inconsistency_by_walks(self) {
            None => Ok(()),
            Some(why) => Err(SdpError::Inconsistent(why)),
        }
    }

    /// Why the mids and the BUNDLE group are inconsistent, if they are (RFC 8843, section 7.1).
    ///
    /// Sets of mids are kept meanwhile. If there is no memory for them, it takes time in the square of the lines.
    pub fn find_inconsistency(&self) -> Option<Inconsistent>
        ensures { result ≡ spec.inconsistency self.now }
    {
        inconsistency(self)
    }
}

impl Sdp {
    // A description with a copy of all that takes no memory.
    fn begin_copy(&self) -> Sdp
        ensures { result ≡ record self.now { groups = []; creds = None; fingerprint = None; lines = [] } }
    {
        let nothing = self.lines.empty_string();
        Sdp {
            id: self.id,
            groups: Seq::empty(*nothing.allocator()),
            ice_lite: self.ice_lite,
            creds: None,
            fingerprint: None,
            setup: self.setup,
            lines: Seq::empty(*nothing.allocator()),
        }
    }

    fn fill_copy(&self, sdp: &mut Sdp) -> Result<(), AllocError>
        ensures { OnOk result (sdp.new ≡ record sdp.old {
          groups = self.now.groups;
          creds = self.now.creds;
          fingerprint = self.now.fingerprint;
          lines = self.now.lines;
        }) }
    {
        let filled = fill_next(Ok(()), &mut sdp.groups, &self.groups);
        let filled = fill_next(filled, &mut sdp.creds, &self.creds);
        let filled = fill_next(filled, &mut sdp.fingerprint, &self.fingerprint);
        fill_next(filled, &mut sdp.lines, &self.lines)
    }
}

impl TryCopy for Sdp {
    fn copy(&self) -> Result<Sdp, AllocError> {
        let mut sdp = self.begin_copy();
        let filled = self.fill_copy(&mut sdp);
        whole(sdp, filled)
    }
}
