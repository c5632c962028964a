//! The connection that a received frame is for.
ghost use Rattle.std.specs.Prelude.{◌≡◌, ◌<◌, ◌^◌, [], ◌∷◌, IfOk, IsSomeAnd, slice_get, length};
ghost use Rattle.rtc_gate_calls.specs.Signal.{signal_of, signal_bytes};
ghost use Rattle.rtc_gate_calls.specs.Routing.{is_ungrammatical as IsUngrammatical, letter_of};
ghost use Rattle.rtc_gate_calls.specs.GateState.{roster_of};
ghost use Rattle.rtc_gate_calls.specs.Delivering.{parcel_of, parcel_with, IsPlaced, CanRoute};

use crate::connection::Connection;
use crate::delivering::Delivery;
use crate::describing::{is_answer, is_offer};
use crate::places::place_of;
use crate::{SignalFrame, SignalKind, write_frame};
use rtc_wire_text::ShortToken;
use std::alloc::{AllocError, Global};
use std::collections::{BTreeMap, LinkedList};

// A queue that has so many frames takes no more.
const QUEUE_LIMIT: usize = 4611686018427387904;

/// The connection whose stream is read.
#[derive(Clone, Copy)]
pub struct Sender {
    pub place: usize,
    pub number: u32,
    pub name: ShortToken,
}

// Whether a frame is an offer or answer whose text is no session description.
fn is_ungrammatical(alloc: Global, frame: &SignalFrame) -> Result<bool, AllocError>
    ensures { IfOk result (λ lacking. lacking ≡ IsUngrammatical (signal_of frame.now)) }
{
    match frame.kind {
        SignalKind::Offer => {
            let read = is_offer(alloc, frame.text)?;
            Ok(!read)
        }
        SignalKind::Answer => {
            let read = is_answer(alloc, frame.text)?;
            Ok(!read)
        }
        SignalKind::Candidate | SignalKind::NobodyThere | SignalKind::NotInGrammar => Ok(false),
    }
}

// A frame for the connection at a place.
fn post(
    alloc: Global,
    connections: &[Connection],
    place: usize,
    to: u32,
    frame: &SignalFrame,
) -> Result<Delivery, AllocError>
    requires there { IsSomeAnd (slice_get connections.now place) (λ connection. connection.number ≡ to) }
    requires text { length frame.now.text.now < 2 ^ 31 }
    ensures parcel { IfOk result (λ delivery. parcel_of delivery ≡ (to, signal_bytes (signal_of frame.now) ∷ [])) }
    ensures placed { IfOk result (λ delivery. IsPlaced connections.now (2 ^ 62) delivery) }
{
    if connections[place].waiting() >= QUEUE_LIMIT {
        return Err(AllocError);
    }
    let bytes = write_frame(alloc, frame)?;
    let mut frames = LinkedList::new(alloc);
    frames.push_back(bytes)?;
    Ok(Delivery { to, place, frames })
}

/// The frame that is sent for a received one, to the connection of its name or back to the sender.
pub fn route(
    alloc: Global,
    connections: &[Connection],
    names: &BTreeMap<ShortToken, u32>,
    sender: &Sender,
    frame: &SignalFrame,
) -> Result<Delivery, AllocError>
    requires can { CanRoute connections.now names.now sender.now }
    requires text { length frame.now.text.now < 2 ^ 31 }
    ensures parcel { IfOk result (λ delivery. parcel_of delivery
        ≡ parcel_with (letter_of (roster_of connections.now) sender.now.number sender.now.name (signal_of frame.now))) }
    ensures placed { IfOk result (λ delivery. IsPlaced connections.now (2 ^ 62) delivery) }
{
    let lacking = is_ungrammatical(alloc, frame)?;
    if lacking {
        let back = SignalFrame {
            kind: SignalKind::NotInGrammar,
            name: frame.name,
            text: "",
        };
        return post(alloc, connections, sender.place, sender.number, &back);
    }
    let Some(number) = names.get(&frame.name) else {
        let back = SignalFrame {
            kind: SignalKind::NobodyThere,
            name: frame.name,
            text: "",
        };
        return post(alloc, connections, sender.place, sender.number, &back);
    };
    let Some(place) = place_of(connections, *number) else {
        unreachable!()
    };
    let out = SignalFrame {
        kind: frame.kind,
        name: sender.name,
        text: frame.text,
    };
    post(alloc, connections, place, *number, &out)
}
