//! Which member a datagram is for.
ghost use Rattle.std.specs.Prelude.{◌≡◌, length};
ghost use Rattle.std.specs.Option.{option_copied};
ghost use Rattle.rtc_room_laws.specs.Accepting.{IsAddressee, accepts, first_accepting};

use crate::member::Member;
use rtc_peer::Input;
use rtc_plain::PlainIce;
use rtc_run::PlainPair;
use rtc_wire::{Moment, Receive, Transmit};

// Whether an input is for a member: it is here, and its left peer accepts it.
fn accepts(member: &Member, pair: &PlainPair, input: &Input<'_>) -> bool
    ensures { result ≡ accepts input.now member.now pair.now }
{
    member.is_here() && pair.left().accepts(input)
}

// The first member that an input is for.
fn first_accepting(members: &[Member], pairs: &[PlainPair], input: &Input<'_>) -> Option<usize>
    requires { length members.now ≡ length pairs.now }
    ensures { result ≡ first_accepting 0 input.now members.now pairs.now }
{
    for k in 0..members.len() {
        if accepts(&members[k], &pairs[k], input) {
            return Some(k);
        }
    }
    None
}

/// The member that a datagram is for.
pub fn addressee(
    members: &[Member],
    pairs: &[PlainPair],
    transmit: Option<&Transmit>,
    now: Moment,
) -> Option<usize>
    requires { length members.now ≡ length pairs.now }
    ensures { IsAddressee (option_copied transmit.entry) now members.now pairs.now result }
{
    let Some(transmit) = transmit else {
        return None;
    };
    match Receive::from_transmit::<PlainIce>(transmit) {
        Err(_) => None,
        Ok(datagram) => first_accepting(members, pairs, &Input::Receive(now, datagram)),
    }
}
