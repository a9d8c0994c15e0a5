//! An attribute of any type.

ghost use Rattle.std.specs.Prelude.{◌≡◌, ◌<◌, ◌^◌};

use crate::rows::attribute::{Attribute, Meaning, Nla, Parseable};
use crate::rows::by_rows::{AttributeRows, RowVisitor};
use crate::rows::place::Place;
use crate::rows::try_clone::TryClone;
use crate::wire::buffer::NlaBuffer;
use crate::wire::fault::DecodeError;
use crate::wire::octets::Octets;
use std::alloc::{AllocError, Global};

/// An attribute whose type has no variant: `nla_type`, including its two flags, and the payload. Both are written
/// unchanged; only the padding may differ from the input.
#[derive(Debug, PartialEq, Eq, Drop)]
pub struct DefaultNla {
    kind: u16,
    value: Octets,
    ghost kind_in_range: { kind < 2 ^ 16 },
}

impl DefaultNla {
    ghost use Rattle.link_base.specs.Table.{Other, Content};
    ghost use Rattle.link_base.specs.Default.{default_means};

    /// Returns the attribute with this `nla_type`, including its two flags, and this payload.
    pub fn new(kind_field: u16, value: Vec<u8>) -> Self
        ensures { default_means {V = Content} result ≡ Other kind_field value.items }
    {
        DefaultNla {
            kind: kind_field,
            value: Octets::new(value),
        }
    }
}

impl TryClone for DefaultNla {
    fn try_clone(&self, alloc: Global) -> Result<Self, AllocError> {
        let value = self.value.try_clone(alloc)?;
        Ok(DefaultNla {
            kind: self.kind,
            value,
        })
    }
}

impl Meaning for DefaultNla {
    ghost use Rattle.link_base.specs.Default.{default_table, default_means};

    ghost table = { default_table };

    ghost means = { default_means };
}

impl Nla for DefaultNla {
    fn kind(&self) -> u16 {
        self.kind
    }

    fn value_len(&self) -> usize {
        self.value.len()
    }

    fn emit_value(&self, buffer: &mut [u8]) {
        buffer.copy_from_slice(self.value.as_slice());
    }
}

impl Parseable for DefaultNla {
    fn parse_payload<P: Place<Self>>(
        alloc: Global,
        buffer: &NlaBuffer<'_>,
        place: &mut P,
    ) -> Result<(), DecodeError> {
        match Octets::from_slice(alloc, buffer.value()) {
            Ok(value) => {
                place.put(DefaultNla {
                    kind: buffer.raw_kind(),
                    value,
                });
                Ok(())
            }
            Err(error) => Err(DecodeError::Memory(error)),
        }
    }
}

impl AttributeRows for DefaultNla {
    #[inline(always)]
    fn visit_row<V: RowVisitor<Self>>(kind: u16, visitor: V) -> V::Output {
        visitor.other(kind)
    }
}

impl Attribute for DefaultNla {
    ghost use Rattle.std.specs.Prelude.{refl};
    ghost use Rattle.link_base.specs.DefaultLawful.{default_lawful};
    ghost use Rattle.link_base.specs.Equality.{defaults};

    ghost lawful = { default_lawful };

    ghost well_formed = { refl };

    ghost thorough = { defaults };
}
