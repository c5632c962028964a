//! How many bytes of each stream are not acknowledged.
ghost use Rattle.std.specs.Prelude.{◌≡◌, ◌+◌, ◌-◌, ◌==◌, ℕ, if◌then◌else◌, OnOk, OnErr};
ghost use Rattle.rtc_assoc_state.specs.Amounts.{amount_of};

use std::alloc::AllocError;
use std::collections::BTreeMap;

/// The unacknowledged bytes of a stream. A stream that has none has no entry.
pub fn amount_in(amounts: &BTreeMap<u16, usize>, stream: u16) -> usize
    ensures { result ≡ amount_of stream amounts.now }
{
    amounts.get(&stream).copied().unwrap_or(0)
}

/// Adds to the amount of a stream. It returns `AllocError` also if the sum would not fit.
pub fn raise(
    amounts: &mut BTreeMap<u16, usize>,
    stream: u16,
    bytes: usize,
) -> Result<(), AllocError>
    ensures ok { OnOk result ((s : ℕ) → amount_of s amounts.new ≡ amount_of s amounts.old + (if stream == s then bytes else 0)) }
    ensures err { OnErr result ((s : ℕ) → amount_of s amounts.new ≡ amount_of s amounts.old) }
{
    let before = amount_in(amounts, stream);
    if bytes == 0 {
        return Ok(());
    }
    if usize::MAX - before < bytes {
        return Err(AllocError);
    }
    amounts.insert(stream, before + bytes)?;
    Ok(())
}

/// Takes from the amount of a stream.
pub fn lower(amounts: &mut BTreeMap<u16, usize>, stream: u16, bytes: usize)
    ensures { (s : ℕ) → amount_of s amounts.new ≡ amount_of s amounts.old - (if stream == s then bytes else 0) }
{
    let before = amount_in(amounts, stream);
    if before <= bytes {
        amounts.remove(&stream);
        return;
    }
    if amounts.insert(stream, before - bytes).is_err() {
        unreachable!();
    }
}
