//! Packets.
ghost use Rattle.std.specs.Prelude.{◌≡◌, ◌≤◌, ◌<◌, ◌^◌, length, IfOk, OnOk, Some, [], ◌∷◌};
ghost use Rattle.rtc_assoc_state.specs.Packets.{frame_in, data_header, data_bytes, acknowledgement_bytes, Fits};
ghost use Rattle.rtc_assoc_state.specs.declared.frame.Frame.TheVariants.{Data, Acknowledgement};

use crate::header::{ACKNOWLEDGEMENT, DATA, DATA_OVERHEAD, HELLO, SHUTDOWN, WELCOME};
use crate::{ItemPart, Outgoing};
use rtc_wire::Bytes;
use std::alloc::{AllocError, Global};
use std::marker::Model;

/// A packet for the other end, of at most 1900 bytes. A contract sees its bytes.
#[derive(Debug, Drop)]
pub struct Packet {
    bytes: Bytes,
}

impl Model for Packet {
    ghost use Rattle.std.specs.Prelude.{ℕ, List, ◌≤◌, length};

    ghost Value = { List ℕ };

    ghost view = { λ p. p.bytes };

    ghost invariant = { λ p. length p.bytes ≤ 1900 };
}

#[tactic(auto, unfolding(crate::specs::Packets::data_header))]
fn header(
    acknowledged: u64,
    number: u64,
    stream: u16,
    generation: u32,
    part: ItemPart,
    identifier: u32,
) -> [u8; DATA_OVERHEAD]
    ensures bytes { result ≡ data_header acknowledged number stream generation part identifier }
    ensures fits { Fits acknowledged number stream generation identifier }
{
    let [a0, a1, a2, a3, a4, a5, a6, a7] = acknowledged.to_be_bytes();
    let [n0, n1, n2, n3, n4, n5, n6, n7] = number.to_be_bytes();
    let [s0, s1] = stream.to_be_bytes();
    let [g0, g1, g2, g3] = generation.to_be_bytes();
    let [i0, i1, i2, i3] = identifier.to_be_bytes();
    let part = part.byte();
    [
        DATA, a0, a1, a2, a3, a4, a5, a6, a7, n0, n1, n2, n3, n4, n5, n6, n7, s0, s1, g0, g1, g2,
        g3, part, i0, i1, i2, i3,
    ]
}

impl Packet {
    fn short(alloc: Global, bytes: &[u8]) -> Result<Packet, AllocError>
        requires { length bytes.now ≤ 1900 }
        ensures { IfOk result (λ packet. packet ≡ bytes.now) }
    {
        Ok(Packet {
            bytes: Bytes::new(Vec::from_slice(alloc, bytes)?),
        })
    }

    pub fn hello(alloc: Global) -> Result<Packet, AllocError>
        ensures { IfOk result (λ packet. packet ≡ 1 ∷ []) }
    {
        Packet::short(alloc, &[HELLO])
    }

    pub fn welcome(alloc: Global) -> Result<Packet, AllocError>
        ensures { IfOk result (λ packet. packet ≡ 2 ∷ []) }
    {
        Packet::short(alloc, &[WELCOME])
    }

    pub fn shutdown(alloc: Global) -> Result<Packet, AllocError>
        ensures { IfOk result (λ packet. packet ≡ 5 ∷ []) }
    {
        Packet::short(alloc, &[SHUTDOWN])
    }

    /// An item and its number, with the number up to which all were received.
    pub fn data(
        alloc: Global,
        acknowledged: u64,
        number: u64,
        item: &Outgoing,
    ) -> Result<Packet, AllocError>
        ensures bytes { IfOk result (λ packet. packet ≡ data_bytes acknowledged number item.now) }
        ensures reads { OnOk result (frame_in (data_bytes acknowledged number item.now) ≡ Some (Data acknowledged number item.now)) }
    {
        let item = item.item();
        let front = header(
            acknowledged,
            number,
            item.stream,
            item.generation,
            item.part,
            item.identifier,
        );
        let content = item.bytes.as_slice();
        let mut bytes = Vec::with_capacity(alloc, DATA_OVERHEAD + content.len())?;
        bytes.extend_from_slice(&front)?;
        bytes.extend_from_slice(content)?;
        Ok(Packet {
            bytes: Bytes::new(bytes),
        })
    }

    /// The number up to which all items were received.
    #[tactic(auto, unfolding(crate::specs::Packets::acknowledgement_bytes))]
    pub fn acknowledgement(alloc: Global, number: u64) -> Result<Packet, AllocError>
        ensures bytes { IfOk result (λ packet. packet ≡ acknowledgement_bytes number) }
        ensures reads { OnOk result (frame_in (acknowledgement_bytes number) ≡ Some (Acknowledgement number)) }
    {
        let [n0, n1, n2, n3, n4, n5, n6, n7] = number.to_be_bytes();
        let packet = Packet::short(alloc, &[ACKNOWLEDGEMENT, n0, n1, n2, n3, n4, n5, n6, n7])?;
        Ok(packet)
    }

    /// The bytes inside.
    pub fn into_bytes(self) -> Bytes
        ensures value { result ≡ self }
        ensures short { length result ≤ 1900 }
    {
        self.bytes
    }
}
