//! Numbers and structs of attributes, as views read them.

ghost use Rattle.std.specs.Prelude.{◌≡◌, option_map};
ghost use Rattle.link_base.specs.Class.{accepted, value_only};
ghost use Rattle.link_base.specs.Table.{form_at};
ghost use Rattle.link_base.specs.Forms.{bytes_in, layout_extent};
ghost use Rattle.link_base.specs.Structs.{values_along};
ghost use Rattle.link_base.specs.Viewed.{number_order, is_struct};

use crate::classes::struct_class::{PayloadStruct, load_struct};
use crate::classes::word::Word;
use crate::rows::form::{Form, Order, Role};
use crate::views::attribute_set::AttributeSet;
use crate::views::view::Value;

impl<'a, S: AttributeSet> Value<'a, S> {
    ghost use Rattle.link_base.specs.Viewed.{set_in, kind_in, payload_in, unsigned_in, struct_in};

    /// Returns the number if the payload is an unsigned number of one byte.
    #[inline]
    pub fn as_u8(&self) -> Option<u8>
        ensures { result ≡ unsigned_in 1 (form_at (S.rows (set_in self.now)) (kind_in self.now))
            (payload_in self.now) }
    {
        self.number()
    }

    /// Returns the number if the payload is an unsigned number of two bytes.
    #[inline]
    pub fn as_u16(&self) -> Option<u16>
        ensures { result ≡ unsigned_in 2 (form_at (S.rows (set_in self.now)) (kind_in self.now))
            (payload_in self.now) }
    {
        self.number()
    }

    /// Returns the number if the payload is an unsigned number of four bytes.
    #[inline]
    pub fn as_u32(&self) -> Option<u32>
        ensures { result ≡ unsigned_in 4 (form_at (S.rows (set_in self.now)) (kind_in self.now))
            (payload_in self.now) }
    {
        self.number()
    }

    /// Returns the number if the payload is an unsigned number of eight bytes.
    #[inline]
    pub fn as_u64(&self) -> Option<u64>
        ensures { result ≡ unsigned_in 8 (form_at (S.rows (set_in self.now)) (kind_in self.now))
            (payload_in self.now) }
    {
        self.number()
    }

    /// Returns the struct in the payload; `None` if the payload is not a struct, or has a length that `T` rejects. `T` must
    /// be the struct of the attribute type: another struct of the same length reads the same bytes.
    #[inline]
    pub fn as_struct<T: PayloadStruct>(&self) -> Option<T>
        ensures { option_map T.held result ≡ struct_in (layout_extent T.LAYOUT) (values_along T.classes)
            (form_at (S.rows (set_in self.now)) (kind_in self.now)) (payload_in self.now) }
    {
        if has_struct(self.content().form()) {
            struct_at(self.buffer().value())
        } else {
            None
        }
    }

    #[inline]
    fn number<W: Word>(&self) -> Option<W>
        ensures { option_map W.value result ≡ unsigned_in (bytes_in W.WIDTH)
            (form_at (S.rows (set_in self.now)) (kind_in self.now)) (payload_in self.now) }
    {
        match number_order(self.content().form()) {
            Some(Order::Little) => W::parse(self.buffer().value()).ok(),
            Some(Order::Big) => W::parse_be(self.buffer().value()).ok(),
            None => None,
        }
    }
}

/// Returns the order of bytes, if a form is that of numbers which stand for themselves or have no enum in Rust.
#[inline]
fn number_order(form: Option<Form>) -> Option<Order>
    ensures { result ≡ number_order form }
{
    match form {
        Some(
            Form::Number {
                order,
                role: Role::Plain | Role::Coded,
                ..
            },
        ) => Some(order),
        _ => None,
    }
}

/// Returns the struct in a payload; `None` if its length is not accepted.
#[inline]
fn struct_at<T: PayloadStruct>(payload: &[u8]) -> Option<T>
    ensures { option_map T.held result ≡ value_only (accepted (layout_extent T.LAYOUT) (values_along T.classes) payload.now) }
{
    match T::LAYOUT.lengths().cause(payload.len()) {
        None => Some(load_struct(payload)),
        Some(_) => None,
    }
}

#[inline]
fn has_struct(form: Option<Form>) -> bool
    ensures { result ≡ is_struct form }
{
    matches!(form, Some(Form::Struct(_)))
}
