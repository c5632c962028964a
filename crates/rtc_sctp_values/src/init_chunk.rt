//! The chunk that starts an association (RFC 9260, section 3.3.2).
ghost use Rattle.std.specs.Prelude.{◌≡◌};
ghost use Rattle.rtc_sctp_values.specs.InitChunk.{
  receive_budget as ReceiveBudget,
  nonzero_tag as NonzeroTag,
  init_chunk as InitChunk,
  drawn_word,
  drawn_chunk,
  after_chunk,
};

use rtc_parts::Ids;

/// What an end holds of unacknowledged bytes at least.
const MIN_RECEIVE_BUDGET: u32 = 1_048_576;

/// How many numbers of 32 bits there are.
const WORDS: u64 = 1 << 32;

// How many unacknowledged bytes an end holds that takes messages up to `limit`; 0 means any.
fn receive_budget(limit: u32) -> u32
    ensures { result ≡ ReceiveBudget limit }
{
    if limit == 0 {
        return u32::MAX;
    }
    MIN_RECEIVE_BUDGET.max(limit)
}

fn nonzero_tag(n: u32) -> u32
    ensures { result ≡ NonzeroTag n }
{
    if n == 0 {
        return 1;
    }
    n
}

fn draw_word<N: Ids>(ids: &mut N) -> u32
    ensures word { result ≡ drawn_word N.ids ids.old }
    ensures after { ids.new ≡ N.ids.after ids.old }
{
    (ids.draw() % WORDS) as u32
}

#[tactic(auto, unfolding(crate::specs::InitChunk::init_chunk))]
fn init_chunk(tag: u32, budget: u32, first: u32) -> [u8; 20]
    ensures { result ≡ InitChunk tag budget first }
{
    let [t0, t1, t2, t3] = tag.to_be_bytes();
    let [b0, b1, b2, b3] = budget.to_be_bytes();
    let [n0, n1, n2, n3] = first.to_be_bytes();
    [
        1, 0, 0, 20, t0, t1, t2, t3, b0, b1, b2, b3, 255, 255, 255, 255, n0, n1, n2, n3,
    ]
}

/// The chunk of an end that takes messages up to `limit`: its tag is drawn, and then its first number.
pub(crate) fn draw_chunk<N: Ids>(ids: &mut N, limit: u32) -> [u8; 20]
    ensures chunk { result ≡ drawn_chunk N.ids limit ids.old }
    ensures after { ids.new ≡ after_chunk N.ids ids.old }
{
    let tag = nonzero_tag(draw_word(ids));
    let first = draw_word(ids);
    init_chunk(tag, receive_budget(limit), first)
}
