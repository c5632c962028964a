//! What a Begin announced.
ghost use Rattle.std.specs.Prelude.{◌≡◌, not};
ghost use Rattle.rtc_file_records.specs.Receiving.{is_announced};

use rtc_wire::Text;

/// The file that the first Begin announced.
#[derive(Debug, Drop)]
pub struct Announced {
    pub name: Text,
    /// How many bytes the file has.
    pub total: u64,
}

impl Announced {
    /// Whether a Begin announces the same file.
    pub fn is_same(&self, name: &str, total: u64) -> bool
        ensures { result ≡ is_announced self.now name.now total }
    {
        self.name.as_str() == name && self.total == total
    }
}
