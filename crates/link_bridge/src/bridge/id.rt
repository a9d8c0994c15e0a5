//! Bridge IDs.

ghost use Rattle.std.specs.Prelude.{refl, ◌≡◌, [], take, IfOk};
ghost use Rattle.link_base.specs.declared.rows.form.Layout.TheVariants as layouts;
ghost use Rattle.link_base.specs.Class.{accepted, AtLeast};
ghost use Rattle.link_base.specs.Answers.{payload_result};
ghost use Rattle.link_base.specs.Structs.{classes_in};
ghost use Rattle.link_bridge.specs.Id.{id_of, id_octets, id_fields, id_held};

use link_base::rows::fields::Field;
use link_base::rows::form::Layout;
use link_base::rows::label::Name;
use link_base::{
    Be, DecodeError, Emitable, PayloadStruct, by_fields, check_at_least, emit_mac, emit_u16_be,
};

/// Length of a bridge ID as a payload, in bytes.
const SIZE: usize = 8;

/// The ID of a bridge in the spanning tree protocol (`struct ifla_bridge_id`, `include/uapi/linux/if_link.h`): a
/// big-endian `u16` priority and a `[u8; 6]` address. Payloads may be longer; the additional bytes are ignored.
#[derive(Clone, Copy, Debug, PartialEq, Eq)]
pub struct BridgeId {
    /// Priority; the bridge with the lowest becomes the root.
    pub priority: u16,
    /// Hardware address of the bridge.
    pub address: [u8; 6],
}

impl BridgeId {
    /// Parses the first 8 bytes of a payload.
    ///
    /// # Errors
    ///
    /// `Payload(TooShort)` if the payload is shorter.
    pub fn parse(payload: &[u8]) -> Result<Self, DecodeError>
        ensures value { result ≡ payload_result (accepted (AtLeast 8) id_of payload.now) }
        ensures octets { IfOk result (λ id. id_octets id ≡ take 8 payload.now) }
    {
        check_at_least(payload, SIZE)?;
        Ok(BridgeId {
            priority: u16::from_be_bytes([payload[0], payload[1]]),
            address: [
                payload[2], payload[3], payload[4], payload[5], payload[6], payload[7],
            ],
        })
    }
}

impl Emitable for BridgeId {
    ghost octets = { id_octets };

    ghost size = { 8 };

    fn buffer_len(&self) -> usize {
        2 + self.address.as_slice().len()
    }

    fn emit(&self, buffer: &mut [u8]) {
        emit_u16_be(buffer, self.priority);
        emit_mac(&mut buffer[2..], &self.address);
    }
}

type IdFields = (Be<u16>, ([u8; 6], ()));

impl PayloadStruct for BridgeId {
    const LAYOUT: Layout = Layout::BridgeId;

    ghost LAYOUT = { layouts.BridgeId };

    ghost fields = { id_fields };

    ghost classes = { classes_in [] id_fields };

    ghost held = { id_held };

    ghost whole = { refl };

    ghost placed = { refl };

    #[inline]
    fn names() -> &'static [Name] {
        &[]
    }

    #[inline]
    fn fields() -> &'static [Field] {
        link_base::fields! {
            "prio" = 0, u16_be;
            "addr" = 2, mac;
        }
    }

    #[inline(always)]
    fn load(bytes: &[u8]) -> Self {
        by_fields!(load(bytes, BridgeId, IdFields) priority address)
    }

    #[inline(always)]
    fn sized(&self) {
        by_fields!(sized(self, IdFields) priority address)
    }

    #[inline(always)]
    fn store(&self, buffer: &mut [u8]) {
        by_fields!(store(self, buffer, IdFields) priority address)
    }
}

/// The octets of an identifier, as they are written.
#[derive(Clone, Copy, Debug, PartialEq, Eq)]
pub struct BridgeIdBuffer {
    priority: [u8; 2],
    address: [u8; 6],
}

/// Converts an ID to its bytes.
impl From<&BridgeId> for BridgeIdBuffer {
    ghost use Rattle.link_bridge.specs.Id.{buffer_of};

    ghost from_gives = { λ id buffer. buffer ≡ buffer_of id.now };

    fn from(id: &BridgeId) -> Self {
        BridgeIdBuffer {
            priority: id.priority.to_be_bytes(),
            address: id.address,
        }
    }
}

/// Converts the bytes of an ID to the ID.
impl From<BridgeIdBuffer> for BridgeId {
    ghost use Rattle.link_bridge.specs.Id.{id_of_buffer};

    ghost from_gives = { λ buffer id. id ≡ id_of_buffer buffer };

    fn from(buffer: BridgeIdBuffer) -> Self {
        let priority = buffer.priority;
        let address = buffer.address;
        BridgeId {
            priority: u16::from_be_bytes(priority),
            address,
        }
    }
}
