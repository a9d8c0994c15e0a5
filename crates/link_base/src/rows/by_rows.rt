//! The rows of an attribute set: what the functions of the set do for one attribute type. The macro `by_rows!` makes
//! these functions. Those that depend on the attribute type alone share one `match`, `AttributeRows::visit_row`.

ghost use Rattle.std.specs.Prelude.{◌≡◌, ◌<◌, ℕ, None, Some, IsTrue, IfOk, OnErr, length};
ghost use Rattle.link_base.specs.Frame.{kind_of, kind_limit};
ghost use Rattle.link_base.specs.Table.{Case, Gives, TakesMemory, Fits, row_of, row_at, class_at};
ghost use Rattle.link_base.specs.Table.{written_payload};
ghost use Rattle.link_base.specs.Parts.{up_to, above};
ghost use Rattle.link_base.specs.Default.{default_means};
ghost use Rattle.link_base.specs.Held.{IsInRange, HoldsMemory};
ghost use Rattle.link_base.specs.Buffer.{kind_field_of, payload_of};
ghost use Rattle.link_base.specs.Storing.{Puts};
ghost use Rattle.link_base.specs.Answers.{OnMemory, under_kind};

use crate::classes::payload_class::PayloadClass;
use crate::rows::attribute::{Meaning, Parseable};
use crate::rows::default_nla::DefaultNla;
use crate::rows::label::Quantity;
use crate::rows::place::{Place, keep};
use crate::wire::buffer::NlaBuffer;
use crate::wire::fault::DecodeError;
use std::alloc::{AllocError, Global};

/// What a row says besides the class of its payloads.
#[derive(Clone, Copy)]
pub struct RowHead {
    /// The constant in the kernel's headers.
    pub name: &'static str,
    /// What the constants of all rows of the list begin with, such as `IFLA_BR_`.
    pub prefix: &'static str,
    /// What the numbers count.
    pub quantity: Quantity,
}

/// What is done for an attribute type, by its row.
pub trait RowVisitor<F: Meaning>: Sized {
    /// The result.
    type Output;

    /// What must hold before the call.
    ghost asks: { Self → ℕ → Type 0 };

    /// What the result is.
    ghost answers: { Self → ℕ → Self.Output → Type 0 };

    /// The attribute type has a row. `C` is the class of its payloads.
    fn row<C: PayloadClass>(self, kind: u16, head: RowHead) -> Self::Output
        requires row { row_at F.table kind
            ≡ Some (row_of head.prefix.now head.quantity kind head.name.now C.FORM C.names C.fields C.shape) }
        requires asks { asks self kind }
        ensures { answers self kind result };

    /// The attribute type has no row.
    fn other(self, kind: u16) -> Self::Output
        requires row { row_at F.table kind ≡ None }
        requires asks { asks self kind }
        ensures { answers self kind result };
}

/// The rows of an attribute set.
pub trait AttributeRows: Meaning + Sized {
    /// Calls `visitor.row` with the row of an attribute type, or `visitor.other` if no row has the type.
    fn visit_row<V: RowVisitor<Self>>(kind: u16, visitor: V) -> V::Output
        requires { V.asks visitor kind }
        ensures { V.answers visitor kind result };
}

/// Parses the payload of an attribute whose row has the class `C`, and stores the value's variant in `place`.
///
/// # Errors
///
/// As for `PayloadClass::read`. On error, `place` is unchanged.
#[inline(always)]
pub fn read_row<C: PayloadClass, F: Meaning + Drop, P: Place<F>, M: FnOnce(C::Value) -> F>(
    alloc: Global,
    kind: u16,
    buffer: &NlaBuffer<'_>,
    place: &mut P,
    variant: M,
) -> Result<(), DecodeError>
    requires kind { kind_of (kind_field_of buffer.now) ≡ kind }
    requires row { class_at F.table kind ≡ Some C.shape }
    requires callable { M.IsAlwaysCallable variant }
    requires means { (value : C.Value) (made : F) → M.post variant value made
        → F.means made ≡ Case kind (C.content value) }
    requires free { P.is_free place.old }
    ensures answer { Puts (λ value. P.takes place.old value place.new) (place.new ≡ place.old) F.means
        (under_kind (kind_of (kind_field_of buffer.now)) result)
        (Gives F.table (kind_field_of buffer.now) (payload_of buffer.now)) }
    ensures memory { OnMemory result (TakesMemory F.table (kind_field_of buffer.now)) }
{
    keep(place, C::read(alloc, kind, buffer.value()).map(variant))
}

/// Parses an attribute whose type has no row, and stores the variant for it, `Other`, in `place`.
///
/// # Errors
///
/// `Memory` if an allocation fails. On error, `place` is unchanged.
#[inline(always)]
pub fn read_other<F: Meaning + Drop, P: Place<F>, M: FnOnce(DefaultNla) -> F>(
    alloc: Global,
    kind: u16,
    buffer: &NlaBuffer<'_>,
    place: &mut P,
    variant: M,
) -> Result<(), DecodeError>
    requires kind { kind_of (kind_field_of buffer.now) ≡ kind }
    requires row { row_at F.table kind ≡ None }
    requires callable { M.IsAlwaysCallable variant }
    requires means { (value : DefaultNla) (made : F) → M.post variant value made → F.means made ≡ default_means value }
    requires free { P.is_free place.old }
    ensures answer { Puts (λ value. P.takes place.old value place.new) (place.new ≡ place.old) F.means
        (under_kind (kind_of (kind_field_of buffer.now)) result)
        (Gives F.table (kind_field_of buffer.now) (payload_of buffer.now)) }
    ensures memory { OnMemory result (TakesMemory F.table (kind_field_of buffer.now)) }
{
    keep(place, DefaultNla::parse(alloc, buffer).map(variant))
}

/// Does nothing. Between the two parts of a list of rows, this call states that no row of the first part, of the types
/// up to `_last`, has the type. The prover then needs none of the facts before it.
#[inline(always)]
pub fn none_up_to<F: Meaning>(_kind: u16, _last: u16)
    requires { row_at (up_to _last F.table) _kind ≡ None }
    ensures { row_at (up_to _last F.table) _kind ≡ None }
{}

/// Does nothing. After both parts of a list of rows, this call states that no row has the type.
#[inline(always)]
#[tactic(auto, using(crate::proofs::PartLemmas::no_row))]
pub fn none_above<F: Meaning>(_kind: u16, _last: u16)
    requires first { row_at (up_to _last F.table) _kind ≡ None }
    requires second { row_at (above _last F.table) _kind ≡ None }
    ensures { row_at F.table _kind ≡ None }
{}

/// Writes the payload of an attribute, whose row has the class `C`. `value` is what its variant holds.
#[inline(always)]
pub fn emit_row<C: PayloadClass, F: Meaning>(
    attribute: &F,
    kind: u16,
    value: &C::Value,
    buffer: &mut [u8],
)
    requires kind { kind < kind_limit }
    requires row { class_at F.table kind ≡ Some C.shape }
    requires means { F.means attribute.now ≡ Case kind (C.content value.now) }
    requires fits { Fits (F.means attribute.now) }
    requires exact { length buffer.old ≡ length (written_payload (F.means attribute.now)) }
    ensures written { buffer.new ≡ written_payload (F.means attribute.now) }
    ensures in_range { IsInRange F.table (F.means attribute.now) }
{
    C::emit(value, buffer);
}

/// Copies an attribute, whose row has the class `C`. `value` is what its variant holds.
///
/// # Errors
///
/// As for `PayloadClass::try_clone`.
#[inline(always)]
pub fn clone_row<C: PayloadClass, F: Meaning + PartialEq, M: FnOnce(C::Value) -> F>(
    alloc: Global,
    attribute: &F,
    kind: u16,
    value: &C::Value,
    variant: M,
) -> Result<F, AllocError>
    requires row { class_at F.table kind ≡ Some C.shape }
    requires means { F.means attribute.now ≡ Case kind (C.content value.now) }
    requires callable { M.IsAlwaysCallable variant }
    requires copy { (copy : C.Value) (made : F) → M.post variant copy made
        → F.means made ≡ Case kind (C.content copy) }
    requires equal { (copy : C.Value) (made : F) → M.post variant copy made
        → IsTrue (C.Value.PartialEq.eq copy value.now) → IsTrue (F.PartialEq.eq made attribute.now) }
    ensures copy { IfOk result (λ copy. F.means copy ≡ F.means attribute.now) }
    ensures equal { IfOk result (λ copy. IsTrue (F.PartialEq.eq copy attribute.now)) }
    ensures memory { OnErr result (HoldsMemory F.table (F.means attribute.now)) }
{
    let copy = C::try_clone(alloc, value)?;
    Ok(variant(copy))
}

/// The functions of an attribute set, over its rows. Before them stands what the names of all begin with, such as
/// `"IFLA_BR_";`: documents leave it out. A row is
/// `NAME = TYPE, VARIANT: CLASS;`, with the kernel's name of the attribute type, its number, the variant that holds its
/// value, and the class of its payloads (`PayloadClass`). `TYPE | NLA_F_NESTED` is a number that is written with the
/// nested flag. `CLASS as QUANTITY` says what the numbers of a row count (`Quantity`). The row of a variant with several
/// fields names them, `VARIANT(FIELD, FIELD): CLASS`: the values of the class are tuples, and the fields must be `Copy`.
/// The row of a variant without a field has no class, `NAME = TYPE, VARIANT;`: it stands for the class `()`.
///
/// A set of more than some 50 rows gives them, after the prefix, in two parts, `..=LAST => { ROWS } _ => { ROWS }`: first
/// those of the attribute types up to `LAST`. The prover reads 64 facts back, and each row of a `match` is a fact of its
/// last arm.
///
/// The calls are `kind(self)`, `size(self)`, `emit(self, buffer)`, `read(alloc, buffer, place)`,
/// `visit(kind, visitor)` and `clone(self, alloc)`.
#[macro_export]
macro_rules! by_rows {
    (kind($self:expr) $prefix:literal; $($name:ident = $kind:literal $(| $flag:ident)?, $variant:ident $(($($field:ident),+))? $(: $class:ty $(as $quantity:ident)?)?;)*) => {
        match $self {
            $($crate::row_pattern!($variant $(($($field),+))?, _value $(, $class)?) => $kind $(| $crate::$flag)?,)*
            Self::Other(other) => $crate::Nla::kind(other),
        }
    };
    (size($self:expr) $prefix:literal; $($name:ident = $kind:literal $(| $flag:ident)?, $variant:ident $(($($field:ident),+))? $(: $class:ty $(as $quantity:ident)?)?;)*) => {
        match $self {
            $($crate::row_pattern!($variant $(($($field),+))?, value $(, $class)?) =>
                <$crate::row_class!($($class)?) as $crate::PayloadClass>::size($crate::row_value!($variant $(($($field),+))?, value $(, $class)?)),)*
            Self::Other(other) => $crate::Nla::value_len(other),
        }
    };
    (emit($self:expr, $buffer:expr) $prefix:literal; $($name:ident = $kind:literal $(| $flag:ident)?, $variant:ident $(($($field:ident),+))? $(: $class:ty $(as $quantity:ident)?)?;)*) => {
        match $self {
            $($crate::row_pattern!($variant $(($($field),+))?, value $(, $class)?) =>
                $crate::rows::by_rows::emit_row::<$crate::row_class!($($class)?), Self>(
                    $self, $kind, $crate::row_value!($variant $(($($field),+))?, value $(, $class)?), $buffer,
                ),)*
            Self::Other(other) => $crate::Nla::emit_value(other, $buffer),
        }
    };
    (read($alloc:expr, $buffer:expr, $place:expr) $prefix:literal; ..=$last:literal => { $($first:tt)* } _ => { $($second:tt)* }) => {{
        let kind = $buffer.kind();
        $crate::by_rows! { read_part(kind, $alloc, $buffer, $place, {
            $crate::rows::by_rows::none_up_to::<Self>(kind, $last);
            $crate::by_rows! { read_part(kind, $alloc, $buffer, $place, {
                $crate::rows::by_rows::none_above::<Self>(kind, $last);
                $crate::rows::by_rows::read_other::<Self, _, _>($alloc, kind, $buffer, $place, Self::Other)
            }) $($second)* }
        }) $($first)* }
    }};
    (read($alloc:expr, $buffer:expr, $place:expr) $prefix:literal; $($rows:tt)*) => {{
        let kind = $buffer.kind();
        $crate::by_rows! { read_part(kind, $alloc, $buffer, $place, {
            $crate::rows::by_rows::read_other::<Self, _, _>($alloc, kind, $buffer, $place, Self::Other)
        }) $($rows)* }
    }};
    (read_part($type:expr, $alloc:expr, $buffer:expr, $place:expr, $other:block) $($name:ident = $kind:literal $(| $flag:ident)?, $variant:ident $(($($field:ident),+))? $(: $class:ty $(as $quantity:ident)?)?;)*) => {
        match $type {
            $($kind => $crate::rows::by_rows::read_row::<$crate::row_class!($($class)?), Self, _, _>(
                $alloc, $kind, $buffer, $place, $crate::row_variant!($variant $(($($field),+))? $(, $class)?),
            ),)*
            _ => $other,
        }
    };
    (visit($type:expr, $visitor:expr) $prefix:literal; ..=$last:literal => { $($first:tt)* } _ => { $($second:tt)* }) => {
        $crate::by_rows! { visit_part($prefix, $type, $visitor, {
            $crate::rows::by_rows::none_up_to::<Self>($type, $last);
            $crate::by_rows! { visit_part($prefix, $type, $visitor, {
                $crate::rows::by_rows::none_above::<Self>($type, $last);
                $visitor.other($type)
            }) $($second)* }
        }) $($first)* }
    };
    (visit($type:expr, $visitor:expr) $prefix:literal; $($rows:tt)*) => {
        $crate::by_rows! { visit_part($prefix, $type, $visitor, { $visitor.other($type) }) $($rows)* }
    };
    (visit_part($prefix:literal, $type:expr, $visitor:expr, $other:block) $($name:ident = $kind:literal $(| $flag:ident)?, $variant:ident $(($($field:ident),+))? $(: $class:ty $(as $quantity:ident)?)?;)*) => {
        match $type {
            $($kind => $visitor.row::<$crate::row_class!($($class)?)>(
                $type, $crate::rows::by_rows::RowHead {
                    name: stringify!($name),
                    prefix: $prefix,
                    quantity: $crate::row_quantity!($($($quantity)?)?),
                },
            ),)*
            _ => $other,
        }
    };
    (clone($self:expr, $alloc:expr) $prefix:literal; $($name:ident = $kind:literal $(| $flag:ident)?, $variant:ident $(($($field:ident),+))? $(: $class:ty $(as $quantity:ident)?)?;)*) => {
        match $self {
            $($crate::row_pattern!($variant $(($($field),+))?, value $(, $class)?) =>
                $crate::rows::by_rows::clone_row::<$crate::row_class!($($class)?), Self, _>(
                    $alloc, $self, $kind, $crate::row_value!($variant $(($($field),+))?, value $(, $class)?), $crate::row_variant!($variant $(($($field),+))? $(, $class)?),
                ),)*
            Self::Other(other) => Ok(Self::Other($crate::TryClone::try_clone(other, $alloc)?)),
        }
    };
    ($call:ident($($argument:tt)*) $prefix:literal; ..=$last:literal => { $($first:tt)* } _ => { $($second:tt)* }) => {
        $crate::by_rows! { $call($($argument)*) $prefix; $($first)* $($second)* }
    };
}

/// What the numbers of a row count: `Quantity::Number` if the row does not say.
#[macro_export]
macro_rules! row_quantity {
    ($quantity:ident) => {
        $crate::rows::label::Quantity::$quantity
    };
    () => {
        $crate::rows::label::Quantity::Number
    };
}

/// The class of a row: `()` if the row names none.
#[macro_export]
macro_rules! row_class {
    ($class:ty) => {
        $class
    };
    () => {
        ()
    };
}

/// The pattern of a row's variant.
#[macro_export]
macro_rules! row_pattern {
    ($variant:ident, $value:ident, $class:ty) => {
        Self::$variant($value)
    };
    ($variant:ident($($field:ident),+), $value:ident, $class:ty) => {
        Self::$variant($($field),+)
    };
    ($variant:ident, $value:ident) => {
        Self::$variant
    };
}

/// A reference to the value of a row: what `row_pattern` binds, a tuple of its fields, or `()`.
#[macro_export]
macro_rules! row_value {
    ($variant:ident, $value:ident, $class:ty) => {
        $value
    };
    ($variant:ident($($field:ident),+), $value:ident, $class:ty) => {
        &($(*$field),+)
    };
    ($variant:ident, $value:ident) => {
        &()
    };
}

/// The function from a row's value to its variant.
#[macro_export]
macro_rules! row_variant {
    ($variant:ident, $class:ty) => {
        Self::$variant
    };
    ($variant:ident($($field:ident),+), $class:ty) => {
        |($($field),+)| Self::$variant($($field),+)
    };
    ($variant:ident) => {
        |()| Self::$variant
    };
}
