//! How often each SSRC is among those of lines.
ghost use Rattle.std.specs.Prelude.{◌≡◌, ◌≤◌, ◌<◌, ◌+◌, ◌-◌, ◌*◌, ◌^◌, ℕ, IfOk, length};
ghost use Rattle.indexmap.specs.IndexMap.{spare};
ghost use Rattle.rtc_plain_media.specs.SourceCounts.{
  count_for,
  same_once,
  ssrc_count,
  source_count,
  sources_count,
  update_count,
  update_numbers,
  updates_numbers,
};

use indexmap::IndexMap;
use rtc_parts::MediaUpdate;
use rtc_sdp_values::Ssrc;
use std::alloc::AllocError;

/// The counts by the numbers of the SSRCs. One that no line has is missing.
pub type SourceCounts = IndexMap<u32, usize>;

/// How often an SSRC is there.
pub fn count_of(counts: &SourceCounts, number: u32) -> usize
    ensures { result ≡ count_for counts.now number }
{
    match counts.get(&number) {
        Some(count) => *count,
        None => 0,
    }
}

/// Counts a number once more, in room that was made.
fn add_number(counts: &mut SourceCounts, number: u32)
    requires room { 0 < spare counts.old }
    requires fits { count_for counts.old number + 1 < 2 ^ 64 }
    ensures counts { (n : ℕ) → count_for counts.new n ≡ count_for counts.old n + same_once n number }
    ensures room { spare counts.old ≤ spare counts.new + 1 }
{
    let count = count_of(counts, number);
    if counts.insert(number, count + 1).is_err() {
        unreachable!();
    }
}

/// Counts a number once less.
fn drop_number(counts: &mut SourceCounts, number: u32)
    ensures counts { (n : ℕ) → count_for counts.new n ≡ count_for counts.old n - same_once n number }
    ensures room { spare counts.old ≤ spare counts.new }
{
    let count = count_of(counts, number);
    if count <= 1 {
        counts.swap_remove(&number);
        return;
    }
    if let Some(held) = counts.get_mut(&number) {
        *held = count - 1;
    }
}

/// Counts an SSRC and its RTX SSRC, in room that was made.
fn add_source(counts: &mut SourceCounts, source: &(Ssrc, Option<Ssrc>))
    requires room { 2 ≤ spare counts.old }
    requires fits { (n : ℕ) → count_for counts.old n + 2 < 2 ^ 64 }
    ensures counts { (n : ℕ) → count_for counts.new n ≡ count_for counts.old n + source_count n source.now }
    ensures room { spare counts.old ≤ spare counts.new + 2 }
{
    add_number(counts, source.0.0);
    if let Some(rtx) = source.1 {
        add_number(counts, rtx.0);
    }
}

/// Counts an SSRC and its RTX SSRC no more.
fn drop_source(counts: &mut SourceCounts, source: &(Ssrc, Option<Ssrc>))
    ensures counts { (n : ℕ) → count_for counts.new n ≡ count_for counts.old n - source_count n source.now }
    ensures room { spare counts.old ≤ spare counts.new }
{
    drop_number(counts, source.0.0);
    if let Some(rtx) = source.1 {
        drop_number(counts, rtx.0);
    }
}

fn add_sources(counts: &mut SourceCounts, sources: &[(Ssrc, Option<Ssrc>)])
    requires room { 2 * length sources.now ≤ spare counts.old }
    requires fits { (n : ℕ) → count_for counts.old n + 2 * length sources.now < 2 ^ 64 }
    ensures counts { (n : ℕ) → count_for counts.new n ≡ count_for counts.old n + sources_count n sources.now }
    ensures room { spare counts.old ≤ spare counts.new + 2 * length sources.now }
{
    for source in sources {
        add_source(counts, source);
    }
}

fn drop_sources(counts: &mut SourceCounts, sources: &[(Ssrc, Option<Ssrc>)])
    ensures counts { (n : ℕ) → count_for counts.new n ≡ count_for counts.old n - sources_count n sources.now }
    ensures room { spare counts.old ≤ spare counts.new }
{
    for source in sources {
        drop_source(counts, source);
    }
}

/// Counts the SSRCs of a line, in room that was made.
pub fn add_line(counts: &mut SourceCounts, line: &MediaUpdate)
    requires room { update_numbers line.now ≤ spare counts.old }
    requires fits { (n : ℕ) → count_for counts.old n + update_numbers line.now < 2 ^ 64 }
    ensures counts { (n : ℕ) → count_for counts.new n ≡ count_for counts.old n + update_count n line.now }
    ensures room { spare counts.old ≤ spare counts.new + update_numbers line.now }
{
    add_sources(counts, line.ssrcs_tx.as_slice());
    add_sources(counts, line.ssrcs_rx.as_slice());
}

/// Counts the SSRCs of a line no more.
pub fn drop_line(counts: &mut SourceCounts, line: &MediaUpdate)
    ensures counts { (n : ℕ) → count_for counts.new n ≡ count_for counts.old n - update_count n line.now }
    ensures room { spare counts.old ≤ spare counts.new }
{
    drop_sources(counts, line.ssrcs_tx.as_slice());
    drop_sources(counts, line.ssrcs_rx.as_slice());
}

/// A sum, or out of memory if it is beyond the range.
pub fn add(count: usize, more: usize) -> Result<usize, AllocError>
    ensures sum { IfOk result (λ sum. sum ≡ count + more) }
    ensures fits { IfOk result (λ sum. sum < 2 ^ 64) }
{
    match count.checked_add(more) {
        Some(sum) => Ok(sum),
        None => Err(AllocError),
    }
}

/// How many numbers an update can have at most, or out of memory if that is beyond the range.
fn numbers_of(update: &MediaUpdate) -> Result<usize, AllocError>
    ensures { IfOk result (λ numbers. numbers ≡ update_numbers update.now) }
{
    let tx = update.ssrcs_tx.len();
    let rx = update.ssrcs_rx.len();
    let tx = add(tx, tx)?;
    let rx = add(rx, rx)?;
    let numbers = add(tx, rx)?;
    Ok(numbers)
}

/// How many numbers some updates can have at most, or out of memory if that is beyond the range.
pub fn numbers_in(updates: &[MediaUpdate]) -> Result<usize, AllocError>
    ensures { IfOk result (λ numbers. numbers ≡ updates_numbers updates.now) }
{
    let mut numbers: usize = 0;
    for update in updates {
        let more = numbers_of(update)?;
        numbers = add(numbers, more)?;
    }
    Ok(numbers)
}
