//! Draws of mids.
ghost use Rattle.std.specs.Prelude.{◌≡◌, ◌+◌, ◌-◌, ◌%◌, ◌<◌, ◌^◌, ◌||◌, not, is_some, IfOk, length};
ghost use Rattle.rtc_peer_rows.specs.Table.{app_of, has_mid};
ghost use Rattle.rtc_peer_core.specs.Names.{drawn_mid, free_mid};
ghost use Rattle.rtc_peer_core.specs.StagedIndex.{is_indexed_mid};

use arrayvec::ArrayString;
use itoa::Buffer;
use rtc_change::Lines;
use rtc_parts::Ids;
use rtc_sdp_values::Mid;
use std::alloc::AllocError;
use std::collections::BTreeSet;

// The mid of a number.
fn numbered_mid(n: u32) -> Mid
    ensures { result ≡ drawn_mid n }
{
    let mut digits = Buffer::new();
    let mut name = ArrayString::<11>::new();
    name.push('m');
    name.push_str(digits.format(n));
    Mid::of(name.as_str())
}

fn is_held_mid(lines: &Lines, mids: &BTreeSet<Mid>, app: &Option<Mid>, mid: Mid) -> bool
    ensures { result ≡ (has_mid mid lines.now || is_indexed_mid mids.now app.now mid) }
{
    lines.has_mid(mid) || *app == Some(mid) || mids.contains(&mid)
}

/// How many lines there are with the staged ones; `AllocError` if they are 2^32 - 1 or more.
pub fn count_lines(lines: &Lines, added: usize) -> Result<u32, AllocError>
    ensures count { IfOk result (λ count. count ≡ length lines.now + added) }
    ensures few { IfOk result (λ count. count < 2 ^ 32 - 1) }
{
    let Some(count) = lines.rows().len().checked_add(added) else {
        return Err(AllocError);
    };
    if count < u32::MAX as usize {
        Ok(count as u32)
    } else {
        Err(AllocError)
    }
}

/// Whether neither a row nor a staged line is one of data channels.
pub fn lacks_app(lines: &Lines, app: &Option<Mid>) -> bool
    ensures { result ≡ not (is_some (app_of lines.now) || is_some app.now) }
{
    app.is_none() && lines.app().is_none()
}

// The first mid counted on from a number that no row and no staged line has.
fn find_mid(lines: &Lines, mids: &BTreeSet<Mid>, app: &Option<Mid>, tries: u32, first: u32) -> Mid
    ensures { result ≡ free_mid (λ mid. has_mid mid lines.now || is_indexed_mid mids.now app.now mid) tries first }
{
    let mut n = first;
    for _ in 0..tries {
        let mid = numbered_mid(n);
        if !is_held_mid(lines, mids, app, mid) {
            return mid;
        }
        n = n.wrapping_add(1);
    }
    numbered_mid(n)
}

/// Draws a mid that no row and no staged line has.
pub fn draw_mid<N: Ids>(
    ids: &mut N,
    lines: &Lines,
    mids: &BTreeSet<Mid>,
    app: &Option<Mid>,
    count: u32,
) -> Mid
    ensures mid { result
        ≡ free_mid (λ mid. has_mid mid lines.now || is_indexed_mid mids.now app.now mid) count (N.ids.drawn ids.old % 2 ^ 32) }
    ensures after { ids.new ≡ N.ids.after ids.old }
{
    let first = (ids.draw() % (1 << 32)) as u32;
    find_mid(lines, mids, app, count, first)
}
