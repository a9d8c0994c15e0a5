//! The other end of a link, which the kernel makes with it: a header, and a list of attributes.

ghost use Rattle.std.specs.Prelude.{◌≤◌, length};
ghost use Rattle.link_base.specs.Class.{AtLeast, Headed, Raw, accepted};
ghost use Rattle.link_base.specs.Table.{One, Single};
ghost use Rattle.link_base.specs.Held.{IsOctets};
ghost use Rattle.link_base.specs.Answers.{PayloadAnswers, OnMemory, OverwritesFront};
ghost use Rattle.link_base.specs.Peer.{peer_octets};
ghost use Rattle.link_base.specs.declared.rows.form.Form.TheVariants as forms;
ghost use Rattle.link_base.specs.declared.rows.form.Look.TheVariants as looks;

use crate::classes::lengths::Lengths;
use crate::classes::payload_class::PayloadClass;
use crate::classes::records::check_at_least;
use crate::lists::canonical::is_peer;
use crate::rows::fields::Field;
use crate::rows::form::{Form, Look};
use crate::rows::label::{KindLabel, Name};
use crate::wire::buffer::NlaBuffer;
use crate::wire::fault::{DecodeError, DecodeFault};
use std::alloc::{AllocError, Global};

/// The length of the header of a [`Peer`], in bytes.
pub const PEER_HEADER: usize = 16;

/// The other end of a link, in a request that makes both (`VETH_INFO_PEER`, `include/uapi/linux/veth.h`). It is written
/// unchanged.
#[derive(Debug, PartialEq, Eq, Drop)]
pub struct Peer {
    /// The header (`struct ifinfomsg`, `include/uapi/linux/rtnetlink.h`).
    pub header: [u8; 16],
    /// The bytes of a list of attributes of a link. The list may be malformed.
    pub attributes: Vec<u8>,
}

/// Payloads of fewer than 16 bytes are `TooShort`.
impl PayloadClass for Peer {
    type Value = Peer;

    const FORM: Form = Form::Bytes(Look::Peer);

    ghost FORM = { forms.Bytes looks.Peer };

    ghost shape = { One (Headed 16) };

    ghost content = { λ peer. Single (Raw (peer_octets peer)) };

    #[inline(always)]
    fn element_label(_kind: u16) -> Option<KindLabel> {
        None
    }

    #[inline]
    fn names() -> &'static [Name] {
        &[]
    }

    #[inline]
    fn fields() -> &'static [Field] {
        &[]
    }

    #[inline]
    fn read(alloc: Global, _kind: u16, payload: &[u8]) -> Result<Peer, DecodeError> {
        read_peer(alloc, payload)
    }

    #[inline]
    fn check(kind: u16, payload: &[u8]) -> Result<(), DecodeFault> {
        Lengths::AtLeast(PEER_HEADER).check(kind, payload)
    }

    #[inline]
    fn size(peer: &Peer) -> usize {
        peer.attributes.len().saturating_add(PEER_HEADER)
    }

    #[inline]
    fn emit(peer: &Peer, buffer: &mut [u8]) {
        emit_header(buffer, &peer.header);
        buffer[PEER_HEADER..].copy_from_slice(&peer.attributes);
    }

    #[inline]
    fn is_canonical(buffer: &NlaBuffer<'_>) -> bool {
        is_peer(buffer)
    }

    #[inline]
    fn try_clone(alloc: Global, peer: &Peer) -> Result<Peer, AllocError> {
        Ok(Peer {
            header: peer.header,
            attributes: Vec::from_slice(alloc, &peer.attributes)?,
        })
    }
}

/// Parses the payload of a peer: the header, and the list that follows it.
///
/// # Errors
///
/// `Payload(TooShort)` if `payload.len() < 16`, `Memory` if the allocation fails.
fn read_peer(alloc: Global, payload: &[u8]) -> Result<Peer, DecodeError>
    ensures value { PayloadAnswers peer_octets result (accepted (AtLeast 16) (λ p. p) payload.now) }
    ensures memory { OnMemory result (16 ≤ length payload.now) }
{
    check_at_least(payload, PEER_HEADER)?;
    let mut header = [0; 16];
    header.copy_from_slice(&payload[..PEER_HEADER]);
    let attributes = Vec::from_slice(alloc, &payload[PEER_HEADER..]).map_err(DecodeError::Memory)?;
    Ok(Peer { header, attributes })
}

/// Writes a header to the start of `buffer`, which must be at least as long.
#[inline]
fn emit_header(buffer: &mut [u8], header: &[u8; 16])
    requires { length header.now ≤ length buffer.old }
    ensures written { OverwritesFront buffer.old buffer.new header.now }
    ensures octets { IsOctets 16 header.now }
{
    buffer[..PEER_HEADER].copy_from_slice(header.as_slice());
}
