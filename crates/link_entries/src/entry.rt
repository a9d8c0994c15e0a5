//! Entries: one attribute of a list, or one element of an attribute that is a list.

ghost use Rattle.std.specs.Prelude.{◌≡◌, length};

use crate::octets::padded;

/// An attribute of a list, or an element of an attribute that is a list (`struct nlroute_value`). Numbers are in the byte
/// order of the machine. Fields that the form does not use are 0.
#[repr(C)]
#[derive(Clone, Copy, Debug)]
pub struct Entry {
    /// The attribute type, without flags. For an element, that of the attribute that holds it.
    pub kind: u16,
    /// For an element, its own attribute type, or its index in a list of addresses or an array of numbers.
    pub inner: u16,
    /// For an attribute whose type has no row, the flags of `nla_type` (`NLA_F_NESTED`, `NLA_F_NET_BYTEORDER`).
    pub flags: u16,
    /// What the entry holds: a number of [`forms`](crate::forms).
    pub form: u8,
    /// 0 for an attribute, 1 for an element.
    pub depth: u8,
    /// The second number, or the mask of a set of flags.
    pub second: u32,
    /// Length of the content in the list, in bytes.
    pub length: u32,
    /// The number. For a list, the number of elements that follow.
    pub number: u64,
    /// Offset of the content in the list, in bytes.
    pub offset: u64,
    /// The octets of an address; the rest is 0.
    pub octets: [u8; 16],
}

impl Entry {
    ghost use Rattle.link_entries.specs.Entry.{blank, padded};
    ghost use Rattle.link_base.specs.Number.{four_bytes};

    /// Returns the entry of an attribute or an element, without its content.
    #[inline(always)]
    pub(crate) fn blank(kind: u16, inner: u16, depth: u8, offset: u64, length: u32) -> Entry
        ensures { result ≡ blank kind inner depth offset length }
    {
        Entry {
            kind,
            inner,
            flags: 0,
            form: 0,
            depth,
            second: 0,
            length,
            number: 0,
            offset,
            octets: [0; 16],
        }
    }

    /// Sets all fields except the number to those of an entry without its content.
    #[inline(always)]
    pub(crate) fn start(&mut self, kind: u16, inner: u16, depth: u8, offset: u64, length: u32)
        ensures { self.new ≡ record (blank kind inner depth offset length) { number = self.old.number } }
    {
        self.kind = kind;
        self.inner = inner;
        self.flags = 0;
        self.form = 0;
        self.depth = depth;
        self.second = 0;
        self.length = length;
        self.offset = offset;
        self.octets = [0; 16];
    }

    /// Sets the form and the number.
    #[inline(always)]
    pub(crate) fn hold(&mut self, as_form: u8, value: u64)
        ensures { self.new ≡ record self.old { form = as_form; number = value } }
    {
        self.form = as_form;
        self.number = value;
    }

    /// Sets the form and both numbers.
    #[inline(always)]
    pub(crate) fn hold_both(&mut self, as_form: u8, first: u32, other: u32)
        ensures value { self.new ≡ record self.old { form = as_form; number = first; second = other } }
        ensures words { (four_bytes first ≡ first) × (four_bytes other ≡ other) }
    {
        self.form = as_form;
        self.number = first.into();
        self.second = other;
    }

    /// Sets the form, the number and the octets: the first sixteen of these, and zeros after them if there are fewer.
    #[inline(always)]
    pub(crate) fn hold_octets(&mut self, as_form: u8, value: u64, address: &[u8])
        ensures { self.new ≡ record self.old { form = as_form; number = value; octets = padded address.now } }
    {
        self.form = as_form;
        self.number = value;
        self.octets = padded(address);
    }
}
