//! The parts in memory by one name.
use crate::{Parts, Peer};
use rtc_assoc_end::PlainAssociation;
use rtc_plain::{CountIds, PlainDtls, PlainIce, PlainMedia, PlainMediaEvent};

/// The parts in memory, for tests and simulations.
///
/// They protect nothing, and whoever knows one of their numbers knows the next.
pub struct Plain;

impl Parts for Plain {
    type MediaEvent = PlainMediaEvent;

    type Ice = PlainIce;

    type Dtls = PlainDtls;

    type Sctp = PlainAssociation;

    type Media = PlainMedia;

    type Ids = CountIds;
}

/// A peer over the parts in memory.
pub type PlainRtc = Peer<Plain>;
