//! Layers that a line sends.
use rtc_peer::{Rid, Simulcast, SimulcastLayer};
use rtc_wire::{Seq, Text};
use std::alloc::{AllocError, Global};

/// Layers of a line (RFC 8853, section 5.1).
#[derive(Clone, Copy)]
pub enum Layers {
    /// The layers `h`, `m` and `l`.
    Three,
    /// The layer `custom` with the pair `foo`, `bar`.
    Custom,
}

fn push_layer(
    layers: &mut Seq<SimulcastLayer>,
    name: &str,
    attributes: Seq<(Text, Text)>,
) -> Result<(), AllocError> {
    match Rid::read(name) {
        Some(rid) => layers.push(SimulcastLayer { rid, attributes }),
        None => Ok(()),
    }
}

fn pair(alloc: Global, key: &str, value: &str) -> Result<Seq<(Text, Text)>, AllocError> {
    let key = Text::from_str(alloc, key)?;
    let value = Text::from_str(alloc, value)?;
    let mut pairs = Seq::empty(alloc);
    pairs.push((key, value))?;
    Ok(pairs)
}

fn three_layers(alloc: Global) -> Result<Seq<SimulcastLayer>, AllocError> {
    let mut layers = Seq::empty(alloc);
    push_layer(&mut layers, "h", Seq::empty(alloc))?;
    push_layer(&mut layers, "m", Seq::empty(alloc))?;
    push_layer(&mut layers, "l", Seq::empty(alloc))?;
    Ok(layers)
}

fn custom_layer(alloc: Global) -> Result<Seq<SimulcastLayer>, AllocError> {
    let attributes = pair(alloc, "foo", "bar")?;
    let mut layers = Seq::empty(alloc);
    push_layer(&mut layers, "custom", attributes)?;
    Ok(layers)
}

/// Layers that are sent.
pub fn simulcast(alloc: Global, layers: Layers) -> Result<Simulcast, AllocError> {
    let send = match layers {
        Layers::Three => three_layers(alloc)?,
        Layers::Custom => custom_layer(alloc)?,
    };
    let recv = Seq::empty(alloc);
    Ok(Simulcast { send, recv })
}
