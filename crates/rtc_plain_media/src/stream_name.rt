//! Lines and layers as keys of a table.
ghost use Rattle.std.specs.Prelude.{◌≡◌};
ghost use Rattle.std.specs.Hash as fed;
ghost use Rattle.std.specs.Cmp.Rules.{hashing};
ghost use Rattle.std.proofs.Common.{rules};
ghost use Rattle.rtc_plain_media.specs.StreamIndex.{stream_name};

use crate::line_key::LineKey;
use crate::stream_row::StreamRow;
use rtc_sdp_values::{Mid, Rid};
use std::hash::{Hash, Hasher};

/// The name of a layer, as a part of a key.
#[derive(Clone, Copy, PartialEq, Eq)]
pub struct LayerKey {
    pub rid: Rid,
}

impl Hash for LayerKey {
    ghost hash_input = { λ key. fed.str key.rid };

    ghost respects_eq = { Prim.search (hashing, rules) };

    fn hash<H: Hasher>(&self, state: &mut H) {
        self.rid.as_str().hash(state);
    }
}

/// The line of a stream and its layer, by which its table finds it.
#[derive(Clone, Copy, PartialEq, Eq, Hash)]
pub struct StreamName {
    pub line: LineKey,
    pub layer: Option<LayerKey>,
}

impl StreamName {
    pub fn new(mid: Mid, rid: Option<Rid>) -> StreamName
        ensures { result ≡ stream_name mid rid }
    {
        let line = LineKey { mid };
        match rid {
            Some(rid) => StreamName {
                line,
                layer: Some(LayerKey { rid }),
            },
            None => StreamName { line, layer: None },
        }
    }

    pub fn of_row(row: &StreamRow) -> StreamName
        ensures { result ≡ stream_name row.now.mid row.now.rid }
    {
        StreamName::new(row.mid, row.rid)
    }
}
