//! The chunks that start an association by session descriptions.
ghost use Rattle.std.specs.Prelude.{◌≡◌, Some, Ok, IsSome, is_some, IfOk, IfErr, IfSome, OnOk, OnErr, option_map, string_bytes};
ghost use Rattle.std.specs.Cmp.{partial_equiv_from_equiv};
ghost use Rattle.rtc_sctp_values.specs.declared.sctp_error.SctpError.TheVariants.{Alloc};
ghost use Rattle.rtc_sctp_values.specs.InitChunk.{chunk_text, chunk_of_text};
ghost use Rattle.rtc_sctp_values.specs.InitHalves.{
  no_halves,
  is_whole as IsWhole,
  with_remote,
  local_text as LocalText,
  remote_text as RemoteText,
  half_bytes,
  local_half,
  same_halves,
  same_halves_equiv,
  SetsRemoteText,
  DrawsLocal,
  MayDrawLocal,
};

use crate::SctpError;
use crate::init_chunk::draw_chunk;
use base64::DecodeAllocError;
use base64::engine::general_purpose::STANDARD;
use rtc_parts::Ids;
use rtc_wire::{Bytes, LOCAL_MAX_MESSAGE_SIZE, TryCopy};
use std::alloc::{AllocError, Global};
use std::marker::Model;

/// The SNAP INIT chunks of both ends (draft-hancke-tsvwg-snap).
#[derive(Debug, Drop)]
pub struct SctpInitData {
    alloc: Global,
    local: Option<Bytes>,
    remote: Option<Bytes>,
    limit: u32,
}

impl Model for SctpInitData {
    ghost use Rattle.rtc_sctp_values.specs.InitHalves.{InitHalves};

    ghost Value = { InitHalves };

    ghost view = { λ halves. record {
      local = halves.local;
      remote = halves.remote;
      limit = halves.limit;
    } };
}

fn encode(alloc: Global, chunk: &[u8]) -> Result<String, AllocError>
    ensures { IfOk result (λ text. string_bytes text ≡ chunk_text chunk.now) }
{
    STANDARD.encode(alloc, chunk)
}

// The text of a chunk, if it is there.
fn encode_half(alloc: Global, half: &Option<Bytes>) -> Result<Option<String>, AllocError>
    ensures { IfOk result (λ text. option_map (λ t. string_bytes t) text ≡ option_map chunk_text half.now) }
{
    match half {
        None => Ok(None),
        Some(chunk) => {
            let text = encode(alloc, chunk.as_slice())?;
            Ok(Some(text))
        }
    }
}

// The bytes of a chunk; none if it is missing.
fn bytes_of(half: &Option<Bytes>) -> &[u8]
    ensures { result.now ≡ half_bytes half.now }
{
    match half {
        None => b"",
        Some(chunk) => chunk.as_slice(),
    }
}

/// The chunk of a text; None if it is no padded base64 (RFC 4648, section 4), or has bits left over.
pub(crate) fn read_chunk(alloc: Global, text: &str) -> Result<Option<Vec<u8>>, AllocError>
    ensures chunk { IfOk result (λ chunk. option_map (λ bytes. bytes.items) chunk ≡ chunk_of_text text.now) }
    ensures text { IfOk result (λ chunk. IfSome chunk (λ bytes. chunk_text bytes.items ≡ text.now)) }
{
    match STANDARD.decode(alloc, text.as_bytes()) {
        Ok(chunk) => Ok(Some(chunk)),
        Err(DecodeAllocError::DecodeError(_)) => Ok(None),
        Err(DecodeAllocError::OutOfMemory) => Err(AllocError),
    }
}

impl SctpInitData {
    /// No chunks, of an end that takes messages of `LOCAL_MAX_MESSAGE_SIZE`.
    pub fn new(alloc: Global) -> SctpInitData
        ensures { result ≡ no_halves 262_144 }
    {
        SctpInitData::with_limit(alloc, LOCAL_MAX_MESSAGE_SIZE)
    }

    /// No chunks, of an end that takes messages of at most `limit` bytes; 0 means any.
    pub fn with_limit(alloc: Global, limit: u32) -> SctpInitData
        ensures { result ≡ no_halves limit }
    {
        SctpInitData {
            alloc,
            local: None,
            remote: None,
            limit,
        }
    }

    /// Draws this end's chunk if it is missing. If memory runs out, nothing changes and nothing is drawn.
    pub fn ensure_local_init_chunk<N: Ids>(&mut self, ids: &mut N) -> Result<(), AllocError>
        ensures { DrawsLocal N.ids self.old ids.old result self.new ids.new }
    {
        if self.local.is_some() {
            return Ok(());
        }
        let mut bytes = vec![in self.alloc; 0u8; 20]?;
        let chunk = draw_chunk(ids, self.limit);
        bytes.as_mut_slice().copy_from_slice(&chunk);
        self.local = Some(Bytes::new(bytes));
        Ok(())
    }

    // A copy of this end's chunk.
    fn copy_local(&self) -> Result<Vec<u8>, AllocError>
        requires { IsSome self.now.local }
        ensures { IfOk result (λ chunk. self.now.local ≡ Some chunk.items) }
    {
        match &self.local {
            Some(chunk) => Vec::from_slice(self.alloc, chunk.as_slice()),
            None => unreachable!(),
        }
    }

    /// This end's chunk, which is drawn at the first call.
    pub fn local_init_chunk<N: Ids>(&mut self, ids: &mut N) -> Result<Vec<u8>, SctpError>
        ensures half { IfOk result (λ chunk. chunk.items ≡ local_half N.ids self.old.local self.old.limit ids.old) }
        ensures drawn { OnOk result (DrawsLocal N.ids self.old ids.old (Ok tt) self.new ids.new) }
        ensures refused { OnErr result (MayDrawLocal N.ids self.old ids.old self.new ids.new) }
        ensures memory { IfErr result (λ e. e ≡ Alloc) }
    {
        self.ensure_local_init_chunk(ids)?;
        let chunk = self.copy_local()?;
        Ok(chunk)
    }

    /// The text of this end's chunk, which is drawn at the first call.
    pub fn local_init_string<N: Ids>(&mut self, ids: &mut N) -> Result<String, SctpError>
        ensures half { IfOk result (λ text. string_bytes text
            ≡ chunk_text (local_half N.ids self.old.local self.old.limit ids.old)) }
        ensures drawn { OnOk result (DrawsLocal N.ids self.old ids.old (Ok tt) self.new ids.new) }
        ensures refused { OnErr result (MayDrawLocal N.ids self.old ids.old self.new ids.new) }
        ensures memory { IfErr result (λ e. e ≡ Alloc) }
    {
        self.ensure_local_init_chunk(ids)?;
        let chunk = self.copy_local()?;
        let text = encode(self.alloc, chunk.as_slice())?;
        Ok(text)
    }

    /// The text of this end's chunk, if it is there.
    pub fn local_text(&self) -> Result<Option<String>, AllocError>
        ensures { IfOk result (λ text. option_map (λ t. string_bytes t) text ≡ LocalText self.now) }
    {
        encode_half(self.alloc, &self.local)
    }

    /// Whether the other end's chunk is there.
    pub fn has_remote_init_chunk(&self) -> bool
        ensures { result ≡ is_some self.now.remote }
    {
        self.remote.is_some()
    }

    /// The text of the other end's chunk, if it is there.
    pub fn remote_init_string(&self) -> Result<Option<String>, AllocError>
        ensures { IfOk result (λ text. option_map (λ t. string_bytes t) text ≡ RemoteText self.now) }
    {
        encode_half(self.alloc, &self.remote)
    }

    /// Sets the other end's chunk.
    pub fn set_remote_init_chunk(&mut self, value: Vec<u8>)
        ensures { self.new ≡ with_remote value.items self.old }
    {
        self.remote = Some(Bytes::new(value));
    }

    /// Sets the other end's chunk by its text. One that is no padded base64 (RFC 4648, section 4), or that has bits
    /// left over, is InvalidSnap.
    pub fn set_remote_init_string(&mut self, value: &str) -> Result<(), SctpError>
        ensures sets { SetsRemoteText value.now self.old result self.new }
        ensures text { OnOk result (RemoteText self.new ≡ Some value.now) }
    {
        match read_chunk(self.alloc, value)? {
            Some(chunk) => {
                self.set_remote_init_chunk(chunk);
                Ok(())
            }
            None => Err(SctpError::InvalidSnap),
        }
    }

    /// Whether both chunks are there.
    pub fn is_whole(&self) -> bool
        ensures { result ≡ IsWhole self.now }
    {
        self.local.is_some() && self.remote.is_some()
    }

    /// The bytes of this end's chunk; none if it is missing.
    pub fn local_bytes(&self) -> &[u8]
        ensures { result.now ≡ half_bytes self.now.local }
    {
        bytes_of(&self.local)
    }

    /// The bytes of the other end's chunk; none if it is missing.
    pub fn remote_bytes(&self) -> &[u8]
        ensures { result.now ≡ half_bytes self.now.remote }
    {
        bytes_of(&self.remote)
    }
}

impl PartialEq for SctpInitData {
    ghost eq = { same_halves };

    ghost laws = { partial_equiv_from_equiv same_halves_equiv };

    fn eq(&self, other: &SctpInitData) -> bool {
        self.local == other.local && self.remote == other.remote && self.limit == other.limit
    }
}

impl Eq for SctpInitData {
    ghost laws = { same_halves_equiv };
}

impl TryCopy for SctpInitData {
    fn copy(&self) -> Result<SctpInitData, AllocError> {
        let local = self.local.copy()?;
        let remote = self.remote.copy()?;
        Ok(SctpInitData {
            alloc: self.alloc,
            local,
            remote,
            limit: self.limit,
        })
    }
}
