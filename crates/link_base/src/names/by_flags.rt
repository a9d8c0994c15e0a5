//! The list of a set's flags, with their names.

/// The lists of a set's flags, over one list. A flag is `NAME = BIT, CONSTANT, "TEXT";`, with the constant in the kernel's
/// headers, the bit, the set's constant for it, and the kernel's name without the prefix that all of the set have in
/// common.
///
/// - `names()` makes the list for `FlagSet::names`: each bit with its text.
/// - `flags(SET)` makes the array for `Flags::flags`, in which the flag `SET::CONSTANT` has the name `CONSTANT`.
///   `flags(SET, BITS)` adds an unnamed flag with these bits: with all bits, every bit is known. `SET` must be a tuple
///   struct of its bits, and the crate must depend on `bitflags`.
#[macro_export]
macro_rules! by_flags {
    (names() $($name:ident = $bit:literal, $constant:ident, $text:literal;)*) => {
        &[$($crate::rows::label::Name { number: $bit, text: $text },)*]
    };
    (flags($set:ident) $($name:ident = $bit:literal, $constant:ident, $text:literal;)*) => {
        [$(bitflags::Flag { name: stringify!($constant), value: $set::$constant },)*]
    };
    (flags($set:ident, $bits:expr) $($name:ident = $bit:literal, $constant:ident, $text:literal;)*) => {
        [
            $(bitflags::Flag { name: stringify!($constant), value: $set::$constant },)*
            bitflags::Flag { name: "", value: $set($bits) },
        ]
    };
}
