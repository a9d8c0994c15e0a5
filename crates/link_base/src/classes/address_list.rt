//! IP addresses as payloads of attributes, and lists of them.

ghost use Rattle.std.specs.Prelude.{◌≡◌, ◌≢◌, ◌≤◌, ◌<◌, ◌^◌, ◌++◌, ◌∷◌, [], ℕ, List, length, map, Some, None, IsTrue, refl};
ghost use Rattle.std.specs.Prelude.{◌+◌, ◌/◌, nat_lt, MatchOption, vec_len, vec_capacity};
ghost use Rattle.std.specs.List.{AllByRecursion};
ghost use Rattle.link_base.specs.Frame.{frame_fault, bytes_of_frames, max_payload};
ghost use Rattle.link_base.specs.Table.{Case, Listed, Addresses, ShapeGives, addresses_from, of_length};
ghost use Rattle.link_base.specs.Held.{IsOctets};
ghost use Rattle.link_base.specs.Answers.{Answers, OnMemory, capped};

use crate::rows::attribute::{Meaning, Nla};
use crate::wire::buffer::{NlaBuffer, cause_at_front};
use crate::wire::fault::{DecodeError, DecodeFault};
use crate::wire::padding::total_size;
use std::alloc::Global;
use std::net::{Ipv4Addr, Ipv6Addr};

/// An IP address, as the payload of an attribute or of an element of a list.
pub trait Address: Copy {
    /// The number of octets in an address.
    const SIZE: usize;

    ghost SIZE: { ℕ };

    /// The octets of an address, in order.
    ghost octets: { Self → List ℕ };

    /// Every address has `SIZE` octets.
    ghost sized: { (a : Self) → length (octets a) ≡ SIZE };

    /// `SIZE` is at most 16.
    ghost few: { IsTrue (nat_lt SIZE 17) };

    /// Returns the address with these octets; `None` if `payload.len()` is not `SIZE`.
    fn from_payload(payload: &[u8]) -> Option<Self>
        ensures { MatchOption result (length payload.now ≢ SIZE)
            (λ a. (length payload.now ≡ SIZE) × (octets a ≡ payload.now)) };

    /// Writes the octets. `buffer` must be exactly `SIZE` bytes long.
    fn put(&self, buffer: &mut [u8])
        requires { length buffer.old ≡ SIZE }
        ensures written { buffer.new ≡ octets self.now }
        ensures in_range { IsOctets SIZE (octets self.now) };
}

impl Address for Ipv4Addr {
    ghost use Rattle.link_base.specs.IpAddress.{four_octets};

    const SIZE: usize = 4;

    ghost SIZE = { 4 };

    ghost octets = { four_octets };

    ghost sized = { λ a. refl };

    ghost few = { refl };

    fn from_payload(payload: &[u8]) -> Option<Self> {
        match payload.try_into() {
            Ok(octets) => Some(Ipv4Addr::from_octets(octets)),
            Err(_) => None,
        }
    }

    fn put(&self, buffer: &mut [u8]) {
        buffer.copy_from_slice(&self.octets());
    }
}

impl Address for Ipv6Addr {
    ghost use Rattle.link_base.specs.IpAddress.{sixteen_octets};

    const SIZE: usize = 16;

    ghost SIZE = { 16 };

    ghost octets = { sixteen_octets };

    ghost sized = { λ a. refl };

    ghost few = { refl };

    fn from_payload(payload: &[u8]) -> Option<Self> {
        match payload.try_into() {
            Ok(octets) => Some(Ipv6Addr::from_octets(octets)),
            Err(_) => None,
        }
    }

    fn put(&self, buffer: &mut [u8]) {
        buffer.copy_from_slice(&self.octets());
    }
}

/// An element of a list of addresses that is to be written.
#[derive(Drop)]
struct Element<A: Address> {
    kind: u16,
    address: A,
    ghost kind_in_range: { kind < 2 ^ 16 },
}

impl<A: Address> Meaning for Element<A> {
    ghost use Rattle.link_base.specs.Default.{default_table};
    ghost use Rattle.link_base.specs.Table.{Other};

    ghost table = { default_table };

    ghost means = { λ e. Other e.kind (A.octets e.address) };
}

impl<A: Address> Nla for Element<A> {
    fn kind(&self) -> u16 {
        self.kind
    }

    fn value_len(&self) -> usize {
        A::SIZE
    }

    fn emit_value(&self, buffer: &mut [u8]) {
        self.address.put(buffer);
    }
}

/// Parses the payload of an attribute of type `kind` as a list of addresses. Returns the addresses, in order, of all
/// elements with a payload of `A::SIZE` bytes. Other elements are skipped, and the attribute types of the elements are
/// ignored.
///
/// # Errors
///
/// `NestedFrame` if the header of an element is malformed. `Memory` if an allocation fails, which is possible only if
/// the payload starts with a whole element.
pub fn read_addresses<A: Address>(
    alloc: Global,
    kind: u16,
    payload: &[u8],
) -> Result<Vec<A>, DecodeError>
    ensures answer { Answers (λ vs. Case kind (Listed (map A.octets vs.items))) result
        (ShapeGives (Addresses A.SIZE) kind payload.now) }
    ensures memory { OnMemory result (frame_fault payload.now ≡ None) }
{
    if payload.is_empty() {
        return Ok(Vec::new(alloc));
    }
    if let Some(cause) = cause_at_front(payload) {
        return Err(DecodeError::Fault(DecodeFault::NestedFrame { kind, cause }));
    }
    let most = payload.len() / (A::SIZE + 4);
    let mut addresses = match Vec::with_capacity(alloc, most) {
        Ok(addresses) => addresses,
        Err(error) => return Err(DecodeError::Memory(error)),
    };
    match push_addresses(kind, payload, &mut addresses) {
        Ok(()) => Ok(addresses),
        Err(error) => Err(error),
    }
}

/// Appends the addresses of a list to `addresses`. `addresses` must be empty and have capacity for as many as there can
/// be, `payload.len() / (A::SIZE + 4)`. This is a separate function so that the compiler does not keep the fields of
/// the `Vec` individually, next to the error, in the loop.
#[inline(never)]
fn push_addresses<A: Address>(
    kind: u16,
    payload: &[u8],
    addresses: &mut Vec<A>,
) -> Result<(), DecodeError>
    requires none { addresses.old.items ≡ [] }
    requires len { vec_len addresses.old ≡ 0 }
    requires room { vec_capacity addresses.old ≡ length payload.now / (A.SIZE + 4) }
    ensures answer { Answers (λ _. Case kind (Listed (map A.octets addresses.new.items))) result
        (ShapeGives (Addresses A.SIZE) kind payload.now) }
    ensures memory { OnMemory result ⊥ }
{
    let mut rest = payload;
    while !rest.is_empty() {
        match NlaBuffer::split_first(rest) {
            Ok((element, after)) => {
                keep(addresses, element.value());
                rest = after;
            }
            Err(cause) => return Err(DecodeError::Fault(DecodeFault::NestedFrame { kind, cause })),
        }
    }
    Ok(())
}

/// Appends the address in `payload`, if its length is that of an address. `addresses` must then have capacity for it.
fn keep<A: Address>(addresses: &mut Vec<A>, payload: &[u8])
    requires { vec_len addresses.old + length (of_length A.SIZE (payload.now ∷ [])) ≤ vec_capacity addresses.old }
    ensures kept { map A.octets addresses.new.items
        ≡ map A.octets addresses.old.items ++ of_length A.SIZE (payload.now ∷ []) }
    ensures len { vec_len addresses.new ≡ vec_len addresses.old + length (of_length A.SIZE (payload.now ∷ [])) }
    ensures room { vec_capacity addresses.new ≡ vec_capacity addresses.old }
{
    if let Some(address) = A::from_payload(payload) {
        addresses.push_reserved(address);
    }
}

/// Returns the length of a written list of addresses in bytes; saturates at `usize::MAX`.
pub fn addresses_len<A: Address>(addresses: &[A]) -> usize
    ensures { result ≡ capped (length (bytes_of_frames (addresses_from 0 (map A.octets addresses.now)))) }
{
    addresses.len().saturating_mul(total_size(A::SIZE))
}

/// Writes addresses as elements with the attribute types 0, 1, 2 and so on. `buffer` must be exactly
/// `addresses_len(addresses)` bytes long, which must be at most 65531.
pub fn emit_addresses<A: Address>(addresses: &[A], buffer: &mut [u8])
    requires fits { length (bytes_of_frames (addresses_from 0 (map A.octets addresses.now))) ≤ max_payload }
    requires exact { length buffer.old ≡ length (bytes_of_frames (addresses_from 0 (map A.octets addresses.now))) }
    ensures written { buffer.new ≡ bytes_of_frames (addresses_from 0 (map A.octets addresses.now)) }
    ensures in_range { AllByRecursion (IsOctets A.SIZE) (map A.octets addresses.now) }
{
    let mut at = 0usize;
    for (i, address) in addresses.iter().enumerate() {
        let element = Element {
            kind: i as u16,
            address: *address,
        };
        element.emit(&mut buffer[at..]);
        at += element.buffer_len();
    }
}
