//! The DTLS connection that a peer holds.
ghost use Rattle.std.specs.Prelude.{◌≡◌, ◌≢◌, ◌≤◌, ◌&&◌, ◌==◌, ◌↔◌, length, IfOk, IfErr, is_some, false, Err, Ok, Some, None, MatchOption};
ghost use Rattle.rtc_parts.specs.declared.dtls_error.DtlsError.TheVariants.{WouldBlock};
ghost use Rattle.std.specs.Prelude.{codes};
ghost use Rattle.rtc_sdp_values.specs.Fingerprint.{certificate_fingerprint};
ghost use Rattle.rtc_parts.specs.DtlsState.{BeginsDtls, SetsRole, HandsOn, SendsData, can_send, GivesPacket};

use crate::{DtlsError, DtlsInstance, DtlsVersion};
use rtc_sdp_values::Fingerprint;
use rtc_wire::{DatagramSend, Moment};
use std::alloc::{AllocError, Global};
use std::collections::VecDeque;
use std::marker::Model;

/// A DTLS connection with its role, the fingerprints of both sides (RFC 8122) and a queue of packets.
///
/// Until a role is set it gives nothing and ignores what it is given.
pub struct Dtls<D> {
    pub(crate) alloc: Global,
    pub(crate) instance: D,
    pub(crate) active: Option<bool>,
    pub(crate) local: Fingerprint,
    pub(crate) remote: Option<Fingerprint>,
    pub(crate) mtu: (usize, usize),
    pub(crate) packets: VecDeque<DatagramSend>,
}

impl<D> Model for Dtls<D> {
    ghost use Rattle.rtc_parts.specs.DtlsState.{DtlsState};

    ghost Value = { DtlsState D };

    ghost view = { λ a. record {
      instance = a.instance;
      active = a.active;
      local = a.local;
      remote = a.remote;
      mtu = a.mtu;
      packets = a.packets.items;
    } };
}

// Written out, so that the proof of what owns a connection sees one call and not the drop of each field.
impl<D: Drop> Drop for Dtls<D> {
    fn drop(self) {
        let Dtls {
            alloc: _alloc,
            instance: _instance,
            active: _active,
            local: _local,
            remote: _remote,
            mtu: _mtu,
            packets: _packets,
        } = self;
    }
}

fn fingerprint(alloc: Global, cert: &[u8]) -> Result<Fingerprint, AllocError>
    ensures { IfOk result (λ made. certificate_fingerprint (codes "sha-256") cert.now ≡ Some made) }
{
    match Fingerprint::of_certificate(alloc, cert, "sha-256")? {
        Some(made) => Ok(made),
        None => unreachable!(),
    }
}

impl<D: DtlsInstance + Drop> Dtls<D> {
    /// A connection of a fresh instance, which is given the certificate. The two numbers of `mtu` are the size that
    /// datagrams should have and the size from which on a warning is due, in bytes.
    pub fn new(
        alloc: Global,
        cert: &[u8],
        mut instance: D,
        mtu: (usize, usize),
    ) -> Result<Dtls<D>, AllocError>
        requires { length cert.now ≤ 1900 }
        ensures { IfOk result (λ made. BeginsDtls D.dtls cert.now instance mtu made) }
    {
        let local = fingerprint(alloc, cert)?;
        instance.set_certificate(cert)?;
        Ok(Dtls {
            alloc,
            instance,
            active: None,
            local,
            remote: None,
            mtu,
            packets: VecDeque::new(alloc),
        })
    }
}

impl<D: DtlsInstance> Dtls<D> {
    /// Whether a role is set.
    pub fn is_inited(&self) -> bool
        ensures { result ≡ is_some self.now.active }
    {
        self.active.is_some()
    }

    /// The role that was set first: whether this side begins the handshake.
    pub fn is_active(&self) -> Option<bool>
        ensures { result ≡ self.now.active }
    {
        self.active
    }

    /// Sets the role. The first one is kept.
    pub fn set_active(&mut self, active: bool)
        ensures { SetsRole D.dtls self.old self.old.active active self.new }
    {
        if self.active.is_none() {
            self.instance.set_active(active);
            self.active = Some(active);
        }
    }

    /// The SHA-256 fingerprint of the certificate of this side.
    pub fn local_fingerprint(&self) -> &Fingerprint
        ensures { result.now ≡ self.now.local }
    {
        &self.local
    }

    /// What was set last by `set_remote_fingerprint`.
    pub fn remote_fingerprint(&self) -> Option<&Fingerprint>
        ensures { MatchOption result (self.now.remote ≡ None) (λ f. self.now.remote ≡ Some f.now) }
    {
        self.remote.as_ref()
    }

    pub fn set_remote_fingerprint(&mut self, f: Fingerprint)
        ensures { self.new ≡ record self.old { remote = Some f } }
    {
        self.remote = Some(f);
    }

    /// The version that the handshake gave.
    pub fn protocol_version(&self) -> Option<DtlsVersion>
        ensures { result ≡ D.dtls.version self.now.instance }
    {
        self.instance.protocol_version()
    }

    /// The size from which on a warning is due, in bytes.
    pub fn mtu_warn(&self) -> usize
        ensures { result ≡ self.now.mtu.1 }
    {
        self.mtu.1
    }

    /// The oldest packet that `poll_output` queued.
    pub fn poll_packet(&mut self) -> Option<DatagramSend>
        ensures { GivesPacket D.dtls self.old self.old.packets result self.new }
    {
        self.packets.pop_front()
    }

    /// Takes a packet of the other side. Before a role is set it is ignored.
    pub fn handle_receive(&mut self, packet: &[u8]) -> Result<(), DtlsError>
        ensures taken { HandsOn D.dtls self.old self.old.active (λ i r j. D.dtls.given i packet.now r j) result self.new }
        ensures never_blocked { result ≢ Err WouldBlock }
    {
        if self.active.is_none() {
            return Ok(());
        }
        self.instance.handle_packet(packet)
    }

    /// Sends application data. It returns `WouldBlock` exactly before a role is set or before the handshake is finished.
    pub fn handle_input(&mut self, bytes: &[u8]) -> Result<(), DtlsError>
        requires { length bytes.now ≤ 1900 }
        ensures sent { SendsData D.dtls self.old (can_send D.dtls self.old) bytes.now result self.new }
        ensures blocked { (result ≡ Err WouldBlock) ↔ (can_send D.dtls self.old ≡ false) }
    {
        if self.active.is_none() || !self.instance.is_finished() {
            return Err(DtlsError::WouldBlock);
        }
        self.instance.send_application_data(bytes)
    }

    /// Passes the moment on. Before a role is set it is ignored.
    pub fn handle_timeout(&mut self, now: Moment) -> Result<(), DtlsError>
        ensures timed { HandsOn D.dtls self.old self.old.active (λ i r j. D.dtls.timed i now r j) result self.new }
        ensures never_blocked { result ≢ Err WouldBlock }
    {
        if self.active.is_none() {
            return Ok(());
        }
        self.instance.handle_timeout(now)
    }

    /// Closes the connection.
    pub fn close(&mut self) -> Result<(), DtlsError>
        ensures closed { D.dtls.shut self.old.instance result self.new.instance }
        ensures others { self.new ≡ record self.old { instance = self.new.instance } }
        ensures never_blocked { result ≢ Err WouldBlock }
    {
        self.instance.close()
    }

    /// Whether the instance is closed and all packets were given out.
    pub fn is_closed(&self) -> bool
        ensures { result ≡ (D.dtls.closed self.now.instance && (length self.now.packets == 0)) }
    {
        self.instance.is_closed() && self.packets.is_empty()
    }
}
