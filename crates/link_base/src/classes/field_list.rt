//! Fields one behind the other. They are nested pairs of classes of payloads, so that each field is read and written by
//! its class, and what holds of all is proved for one more: `(u16, (u32, ()))` is a number of two bytes, then one of four.

ghost use Rattle.std.specs.Prelude.{◌≡◌, ◌≤◌, [], ◌∷◌, List, length};
ghost use Rattle.link_base.specs.Number.{IsBytes};
ghost use Rattle.link_base.specs.Class.{Class, Value, extent, size_of};
ghost use Rattle.link_base.specs.Payloads.{class_by};
ghost use Rattle.link_base.specs.Structs.{packed, total, values_along};

use crate::classes::fixed_size::FixedSize;

/// Fields one behind the other.
pub trait FieldList {
    /// What they hold, as nested pairs.
    type Values: Copy + Drop;

    /// The classes of the fields.
    ghost classes: { List Class };

    /// What each value represents.
    ghost means: { Self.Values → List Value };

    /// Returns what the fields at the front of `bytes` hold.
    fn load(bytes: &[u8]) -> Self::Values
        requires { total Self.classes ≤ length bytes.now }
        ensures { Self.means result ≡ values_along Self.classes bytes.now };

    /// States that the written fields have as many bytes as their classes say. It has no effect.
    fn sized(values: &Self::Values)
        ensures { length (packed (Self.means values.now)) ≡ total Self.classes };

    /// Writes the fields. `buffer` must be exactly as long as they are.
    fn store(values: &Self::Values, buffer: &mut [u8])
        requires { length buffer.old ≡ total Self.classes }
        ensures written { buffer.new ≡ packed (Self.means values.now) }
        ensures in_range { IsBytes (packed (Self.means values.now)) };
}

impl FieldList for () {
    type Values = ();

    ghost classes = { [] };

    ghost means = { λ _. [] };

    #[inline(always)]
    fn load(_bytes: &[u8]) {}

    #[inline(always)]
    fn sized(_values: &()) {}

    #[inline(always)]
    fn store(_values: &(), _buffer: &mut [u8]) {}
}

impl<C: FixedSize, R: FieldList> FieldList for (C, R) {
    type Values = (C::Value, R::Values);

    ghost classes = { class_by C.FORM C.names ∷ R.classes };

    ghost means = { λ values. C.means values.0 ∷ R.means values.1 };

    #[inline(always)]
    #[tactic(auto, using(crate::proofs::ClassLemmas::at_size))]
    fn load(bytes: &[u8]) -> (C::Value, R::Values) {
        let size = size_of::<C>();
        (C::load(&bytes[..size]), R::load(&bytes[size..]))
    }

    #[inline(always)]
    fn sized(values: &(C::Value, R::Values)) {
        let _ = C::len(&values.0);
        R::sized(&values.1);
    }

    #[inline(always)]
    fn store(values: &(C::Value, R::Values), buffer: &mut [u8]) {
        let size = C::len(&values.0);
        C::store(&values.0, &mut buffer[..size]);
        R::store(&values.1, &mut buffer[size..]);
    }
}

/// The bodies of the functions of a `PayloadStruct`, over the names of all its fields in the order in which they lie. `LIST`
/// is the type of these fields, nested pairs of their classes.
///
/// - `load(BYTES, STRUCT, LIST)` loads the fields, and makes the struct of them.
/// - `sized(SELF, LIST)` is the fact on their length.
/// - `store(SELF, BUFFER, LIST)` writes them.
#[macro_export]
macro_rules! by_fields {
    (load($bytes:ident, $of:ident, $list:ty) $($field:ident)*) => {{
        let values = <$list as $crate::FieldList>::load($bytes);
        $crate::by_fields!(@from $of [] {} (values) $($field)*)
    }};
    (sized($of:expr, $list:ty) $($field:ident)*) => {
        <$list as $crate::FieldList>::sized(&$crate::by_fields!(@to $of, $($field)*))
    };
    (store($of:expr, $buffer:ident, $list:ty) $($field:ident)*) => {
        <$list as $crate::FieldList>::store(&$crate::by_fields!(@to $of, $($field)*), $buffer)
    };
    (@from $of:ident [$($done:ident)*] {$($bound:tt)*} ($($at:tt)*)) => {{
        $($bound)*
        $of { $($done,)* }
    }};
    (@from $of:ident [$($done:ident)*] {$($bound:tt)*} ($($at:tt)*) $field:ident $($more:ident)*) => {
        $crate::by_fields!(@from $of [$($done)* $field] {$($bound)* let $field = $($at)*.0;} ($($at)*.1) $($more)*)
    };
    (@to $of:expr,) => {
        ()
    };
    (@to $of:expr, $field:ident $($more:ident)*) => {
        ($of.$field, $crate::by_fields!(@to $of, $($more)*))
    };
}

/// Returns the number of bytes that a field of this class has.
#[inline(always)]
fn size_of<C: FixedSize>() -> usize
    ensures { result ≡ size_of (extent (class_by C.FORM C.names)) }
{
    C::FORM.lengths().kept()
}
