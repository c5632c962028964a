//! The streams whose reset is outstanding.
ghost use Rattle.std.specs.Prelude.{◌≡◌, ◌<◌, vec_len, vec_capacity};
ghost use Rattle.rtc_sctp_entries.specs.Entries.{has_reset as HasReset, with_reset, without_reset};

/// Whether a reset of a stream is outstanding.
pub fn has_reset(id: u16, resets: &[u16]) -> bool
    ensures { result ≡ HasReset id resets.now }
{
    resets.iter().any(|own| *own == id)
}

/// Notes that a reset of a stream is outstanding, for which there is room.
pub fn note_reset(id: u16, resets: &mut Vec<u16>)
    requires { vec_len resets.old < vec_capacity resets.old }
    ensures { resets.new.items ≡ with_reset id resets.old.items }
{
    if has_reset(id, resets.as_slice()) {
        return;
    }
    resets.push_reserved(id);
}

/// Forgets that a reset of a stream is outstanding.
pub fn drop_reset(id: u16, resets: &mut Vec<u16>)
    ensures { resets.new.items ≡ without_reset id resets.old.items }
{
    resets.retain(|own| !(*own == id));
}
