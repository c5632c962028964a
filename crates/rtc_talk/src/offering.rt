//! Changes by words.
use crate::cutting::cut;
use rtc::{
    CountIds, Direction, MediaKind, Mid, PlainAssociation, PlainDtls, PlainIce, PlainMedia, Rid,
    RtcError, SdpApi, Seq, Simulcast, SimulcastLayer,
};
use std::alloc::{AllocError, Global};

pub type Api<'a> = SdpApi<'a, PlainIce, PlainDtls, PlainAssociation, PlainMedia, CountIds>;

fn direction(word: &str) -> Direction {
    match word {
        "sendonly" => Direction::SendOnly,
        "recvonly" => Direction::RecvOnly,
        "inactive" => Direction::Inactive,
        _ => Direction::SendRecv,
    }
}

// Three layers.
fn three_layers(alloc: Global) -> Result<Seq<SimulcastLayer>, AllocError> {
    let mut layers = Seq::empty(alloc);
    for name in "h m l".split(' ') {
        if let Some(rid) = Rid::read(name) {
            layers.push(SimulcastLayer {
                rid,
                attributes: Seq::empty(alloc),
            })?;
        }
    }
    Ok(layers)
}

fn simulcast(alloc: Global, word: &str) -> Result<Option<Simulcast>, AllocError> {
    match word {
        "send" => Ok(Some(Simulcast {
            send: three_layers(alloc)?,
            recv: Seq::empty(alloc),
        })),
        "receive" => Ok(Some(Simulcast {
            send: Seq::empty(alloc),
            recv: three_layers(alloc)?,
        })),
        _ => Ok(None),
    }
}

fn add_line(
    alloc: Global,
    api: &mut Api<'_>,
    kind: MediaKind,
    rest: &str,
    told: &mut String,
) -> Result<(), RtcError> {
    let (dir, layers) = cut(rest, ':');
    let simulcast = simulcast(alloc, layers)?;
    let mid = api.add_media(kind, direction(dir), None, None, simulcast)?;
    write!(told, " {}", mid.as_str())?;
    Ok(())
}

fn turn_line(api: &mut Api<'_>, rest: &str, told: &mut String) -> Result<(), RtcError> {
    let (name, dir) = cut(rest, ':');
    if let Some(mid) = Mid::read(name) {
        let is_set = api.set_direction(mid, direction(dir))?;
        write!(told, " {is_set}")?;
    }
    Ok(())
}

fn stop_line(api: &mut Api<'_>, name: &str, told: &mut String) -> Result<(), RtcError> {
    if let Some(mid) = Mid::read(name) {
        let is_stopped = api.stop_media(mid)?;
        write!(told, " {is_stopped}")?;
    }
    Ok(())
}

// Stages a change, and writes what the call returns.
fn stage(
    alloc: Global,
    api: &mut Api<'_>,
    change: &str,
    told: &mut String,
) -> Result<(), RtcError> {
    let (head, rest) = cut(change, ':');
    match head {
        "audio" => add_line(alloc, api, MediaKind::Audio, rest, told),
        "video" => add_line(alloc, api, MediaKind::Video, rest, told),
        "dir" => turn_line(api, rest, told),
        "stop" => stop_line(api, rest, told),
        "channel" => {
            api.add_channel(String::from_str(alloc, rest)?)?;
            Ok(())
        }
        "restart" => {
            api.ice_restart(rest == "keep")?;
            Ok(())
        }
        _ => Ok(()),
    }
}

/// Stages changes, and returns what the calls return.
pub fn stage_all(alloc: Global, api: &mut Api<'_>, changes: &str) -> Result<String, RtcError> {
    let mut told = String::new(alloc);
    for change in changes.split(' ') {
        stage(alloc, api, change, &mut told)?;
    }
    Ok(told)
}
