//! The functions of an enum for named numbers, over its list of names.

/// The functions of an enum for named numbers, over its list of names. A name is
/// `NAME = NUMBER, VARIANT, "TEXT";`, with the kernel's name of the number, the number, its variant, and the variant's
/// `Display` output. Additional strings that are parsed as the variant follow, each after `|`.
///
/// - `of_number(number)` converts a number to its variant, and `number(TYPE, value)` a value of the enum to its number.
/// - `names()` makes the list for `NamedNumber::names`: each number with its `Display` output.
/// - `display(self, f)` writes the `Display` output. A number without a name is written in decimal, and by
///   `display_unknown` as in `unknown-variant (9)`.
/// - `parse(text)` parses a string, case-sensitive; `parse_any_case(text)` ignores ASCII case; `parse_or_number(text, N)`
///   also parses any number of the type `N`, in decimal.
#[macro_export]
macro_rules! by_names {
    (of_number($number:expr) $($name:ident = $value:literal, $variant:ident, $text:literal $(| $further:literal)*;)*) => {
        match $number {
            $($value => Self::$variant,)*
            number => Self::Other(number),
        }
    };
    (number($type:ident, $variable:expr) $($name:ident = $value:literal, $variant:ident, $text:literal $(| $further:literal)*;)*) => {
        match $variable {
            $($type::$variant => $value,)*
            $type::Other(number) => number,
        }
    };
    (names() $($name:ident = $value:literal, $variant:ident, $text:literal $(| $further:literal)*;)*) => {
        &[$($crate::rows::label::Name { number: $value, text: $text },)*]
    };
    (display($self:expr, $f:expr) $($name:ident = $value:literal, $variant:ident, $text:literal $(| $further:literal)*;)*) => {
        match $self {
            $(Self::$variant => $f.write_str($text),)*
            Self::Other(number) => write!($f, "{number}"),
        }
    };
    (display_unknown($self:expr, $f:expr) $($name:ident = $value:literal, $variant:ident, $text:literal $(| $further:literal)*;)*) => {
        match $self {
            $(Self::$variant => $f.write_str($text),)*
            Self::Other(number) => write!($f, "unknown-variant ({number})"),
        }
    };
    (parse($string:expr) $($name:ident = $value:literal, $variant:ident, $text:literal $(| $further:literal)*;)*) => {
        match $string {
            $($text $(| $further)* => Ok(Self::$variant),)*
            _ => Err($crate::DecodeError::Fault($crate::DecodeFault::Text)),
        }
    };
    (parse_or_number($string:expr, $number:ty) $($name:ident = $value:literal, $variant:ident, $text:literal $(| $further:literal)*;)*) => {
        match $string {
            $($text $(| $further)* => Ok(Self::$variant),)*
            _ => match $string.parse::<$number>() {
                Ok(number) => Ok(number.into()),
                Err(_) => Err($crate::DecodeError::Fault($crate::DecodeFault::Text)),
            },
        }
    };
    (parse_any_case($string:expr) $($name:ident = $value:literal, $variant:ident, $text:literal $(| $further:literal)*;)*) => {{
        $(if $string.eq_ignore_ascii_case($text) $(|| $string.eq_ignore_ascii_case($further))* {
            return Ok(Self::$variant);
        })*
        Err($crate::DecodeError::Fault($crate::DecodeFault::Text))
    }};
}
