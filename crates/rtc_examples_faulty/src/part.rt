//! Parts that fail.

/// A part of the left peer that fails.
#[derive(Clone, Copy, Debug, PartialEq, Eq)]
pub enum Part {
    Dtls,
    Association,
    Media,
}

impl Part {
    /// By its word.
    pub fn read(word: &str) -> Option<Part> {
        match word {
            "dtls" => Some(Part::Dtls),
            "association" => Some(Part::Association),
            "media" => Some(Part::Media),
            _ => None,
        }
    }
}
