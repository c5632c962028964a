//! A part that is being built.
ghost use Rattle.std.specs.Prelude.{◌≡◌, ◌++◌, ◌∷◌, [], None, OnOk, Some};
ghost use Rattle.std.specs.Option.{option_or};
ghost use Rattle.rtc_sdp_reader.specs.Putting as spec;

use rtc_sdp_attributes::{Fmtp, RidLine, Rtpmap, SimulcastLine, SsrcName};
use rtc_sdp_grammar::Attribute;
use rtc_sdp_values::{Candidate, Direction, Extension, Fingerprint, Mid, Msid, Setup, Ssrc};
use rtc_wire::{Seq, Text};
use std::alloc::{AllocError, Global};

/// What the attributes of the session part, or of a line part, say. Of an attribute that counts once, the first counts.
#[derive(Debug, Drop)]
pub struct Part {
    pub mid: Option<Mid>,
    pub groups: Seq<Seq<Mid>>,
    pub setup: Option<Setup>,
    pub dir: Option<Direction>,
    pub ufrag: Option<Text>,
    pub pass: Option<Text>,
    pub lite: bool,
    pub fingerprint: Option<Fingerprint>,
    pub candidates: Seq<Candidate>,
    pub max_message_size: Option<u64>,
    pub sctp_init: Option<Text>,
    pub codecs: Seq<Rtpmap>,
    pub parameters: Seq<Fmtp>,
    pub exts: Seq<(u8, Extension)>,
    pub msid: Option<Msid>,
    pub layers: Seq<RidLine>,
    pub layer_list: Option<SimulcastLine>,
    /// The name of the first SSRC that has one.
    pub cname: Option<Text>,
    /// The SSRCs that have a name.
    pub sources: Seq<u32>,
    pub pairs: Seq<(Ssrc, Ssrc)>,
}

impl Part {
    /// A part of no attribute. Nothing is allocated.
    pub(crate) fn empty(alloc: Global) -> Part
        ensures { result ≡ spec.empty_part }
    {
        Part {
            mid: None,
            groups: Seq::empty(alloc),
            setup: None,
            dir: None,
            ufrag: None,
            pass: None,
            lite: false,
            fingerprint: None,
            candidates: Seq::empty(alloc),
            max_message_size: None,
            sctp_init: None,
            codecs: Seq::empty(alloc),
            parameters: Seq::empty(alloc),
            exts: Seq::empty(alloc),
            msid: None,
            layers: Seq::empty(alloc),
            layer_list: None,
            cname: None,
            sources: Seq::empty(alloc),
            pairs: Seq::empty(alloc),
        }
    }

    /// Drops what the attributes said. The lists keep their room.
    pub(crate) fn clear(&mut self)
        ensures { self.new ≡ spec.empty_part }
    {
        self.mid = None;
        self.groups.clear();
        self.setup = None;
        self.dir = None;
        let_go(&mut self.ufrag);
        let_go(&mut self.pass);
        self.lite = false;
        let_go(&mut self.fingerprint);
        self.candidates.clear();
        self.max_message_size = None;
        let_go(&mut self.sctp_init);
        self.codecs.clear();
        self.parameters.clear();
        self.exts.clear();
        let_go(&mut self.msid);
        self.layers.clear();
        let_go(&mut self.layer_list);
        let_go(&mut self.cname);
        self.sources.clear();
        self.pairs.clear();
    }

    /// Puts an attribute into its field.
    pub(crate) fn put(&mut self, attribute: Attribute) -> Result<(), AllocError>
        ensures { OnOk result (self.new ≡ spec.put_attribute self.old attribute) }
    {
        match attribute {
            Attribute::MidLine(mid) => keep_first(&mut self.mid, mid),
            Attribute::GroupLine(mids) => self.groups.push(mids),
            Attribute::SetupLine(setup) => keep_first(&mut self.setup, setup),
            Attribute::DirectionLine(dir) => keep_first(&mut self.dir, dir),
            Attribute::UfragLine(ufrag) => keep_first(&mut self.ufrag, ufrag),
            Attribute::PasswordLine(password) => keep_first(&mut self.pass, password),
            Attribute::FingerprintLine(fingerprint) => keep_first(
                &mut self.fingerprint,
                fingerprint,
            ),
            Attribute::CandidateLine(candidate) => self.candidates.push(candidate),
            Attribute::MessageSizeLine(size) => keep_first(&mut self.max_message_size, size),
            Attribute::SctpInitLine(chunk) => keep_first(&mut self.sctp_init, chunk),
            Attribute::CodecLine(codec) => self.codecs.push(codec),
            Attribute::ParametersLine(fmtp) => self.parameters.push(fmtp),
            Attribute::ExtensionLine(row) => self.exts.push(row),
            Attribute::StreamLine(msid) => keep_first(&mut self.msid, msid),
            Attribute::LayerLine(layer) => self.layers.push(layer),
            Attribute::LayerListLine(list) => keep_first(&mut self.layer_list, list),
            Attribute::SourcePairLine(pair) => self.pairs.push(pair),
            Attribute::OtherGroup => Ok(()),
            Attribute::LiteLine => {
                self.lite = true;
                Ok(())
            }
            Attribute::SourceLine(source) => put_source(&mut self.sources, &mut self.cname, source),
        }
    }
}

/// Drops what a field has.
fn let_go<T: Drop>(field: &mut Option<T>)
    ensures { field.new ≡ None }
{
    *field = None;
}

/// Of an attribute that counts once, the first counts. It returns what the push of one that counts each time does.
fn keep_first<T: Drop>(field: &mut Option<T>, value: T) -> Result<(), AllocError>
    ensures { OnOk result (field.new ≡ option_or field.old (Some value)) }
{
    if field.is_none() {
        *field = Some(value);
    }
    Ok(())
}

/// Puts an SSRC that has a name, and the name if it is the first.
fn put_source(
    sources: &mut Seq<u32>,
    cname: &mut Option<Text>,
    source: SsrcName,
) -> Result<(), AllocError>
    ensures sources { OnOk result (sources.new ≡ sources.old ++ source.ssrc.0 ∷ []) }
    ensures cname { OnOk result (cname.new ≡ option_or cname.old (Some source.cname)) }
{
    let SsrcName { ssrc, cname: name } = source;
    sources.push(ssrc.0)?;
    keep_first(cname, name)
}
