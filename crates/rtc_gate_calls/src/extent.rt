//! How much of a stream's first frame is there.
ghost use Rattle.std.specs.Prelude.{◌≡◌, ◌+◌, ◌≤◌, length, slice_range, take};
ghost use Rattle.std.specs.Int.{w32, from_be_bytes};
ghost use Rattle.rtc_gate_calls.specs.Signal as spec;

/// How much of the first frame of a stream is there, by the length that it begins with.
#[derive(Clone, Copy, Debug, PartialEq, Eq)]
pub enum FrameExtent {
    /// Some of its bytes are still missing.
    Partial,
    /// Its length is not that of an incoming body.
    OutOfRange,
    /// All of it: so many bytes, those of the length among them.
    Whole(usize),
}

fn announced(bytes: &[u8]) -> u32
    requires { 4 ≤ length bytes.now }
    ensures { result ≡ from_be_bytes w32 (take 4 bytes.now) }
{
    let field = &bytes[..4];
    u32::from_be_bytes([field[0], field[1], field[2], field[3]])
}

/// How much of the first frame of a stream is there.
pub fn frame_extent(bytes: &[u8]) -> FrameExtent
    ensures extent { result ≡ spec.frame_extent bytes.now }
    ensures whole { spec.IfWhole result (λ size. (7 ≤ size) × (size ≤ 65540) × (size ≤ length bytes.now)) }
{
    if bytes.len() < 4 {
        return FrameExtent::Partial;
    }
    let body = announced(bytes) as usize;
    if body < 3 || body > 65536 {
        return FrameExtent::OutOfRange;
    }
    if bytes.len() < 4 + body {
        FrameExtent::Partial
    } else {
        FrameExtent::Whole(4 + body)
    }
}
