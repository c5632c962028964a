//! Credentials that are drawn.
ghost use Rattle.std.specs.Prelude.{◌≡◌, ◌++◌, ◌<◌, ◌/◌, ◌%◌, IfOk, OnOk, string_bytes};
ghost use Rattle.rtc_peer_core.specs.Creds.{lower_hex_digit, hex_digits, drawn_creds};

use rtc_sdp_values::IceCreds;
use rtc_wire::Text;
use std::alloc::{AllocError, Global};

// A digit of base 16.
fn digit(n: u8) -> char
    requires { n < 16 }
    ensures { result ≡ lower_hex_digit n }
{
    if n < 10 {
        (b'0' + n) as char
    } else {
        (b'a' + n - 10) as char
    }
}

// Appends the last so many digits of a number in base 16.
fn push_digits(text: &mut String, count: u32, n: u64) -> Result<(), AllocError>
    ensures { OnOk result (string_bytes text.new ≡ string_bytes text.old ++ hex_digits count n) }
{
    if count == 0 {
        return Ok(());
    }
    push_digits(text, count - 1, n / 16)?;
    text.push(digit((n % 16) as u8))?;
    Ok(())
}

/// The credentials of a draw.
#[tactic(auto, unfolding(rtc_peer_core::specs::Creds::drawn_creds))]
pub fn make_creds(alloc: Global, n: u64) -> Result<IceCreds, AllocError>
    ensures { IfOk result (λ creds. creds ≡ drawn_creds n) }
{
    let mut ufrag = String::new(alloc);
    ufrag.push('u')?;
    push_digits(&mut ufrag, 16, n)?;
    let mut pass = String::new(alloc);
    push_digits(&mut pass, 16, n)?;
    push_digits(&mut pass, 16, n)?;
    Ok(IceCreds {
        ufrag: Text::new(ufrag),
        pass: Text::new(pass),
    })
}
