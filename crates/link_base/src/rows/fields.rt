//! Fields of fixed-layout structs.

use crate::rows::form::Form;
use crate::rows::label::{Name, Quantity};

/// A field of a struct.
#[derive(Clone, Copy, Debug, PartialEq, Eq)]
pub struct Field {
    /// The name in the kernel's headers.
    pub name: &'static str,
    /// Where the field starts, in bytes from the start of the struct.
    pub offset: usize,
    /// What its number counts.
    pub quantity: Quantity,
    /// The form of its value, which has one size.
    pub form: Form,
    /// The names of its number, or of its bits. If there are none, those of the struct's row are meant.
    pub names: &'static [Name],
}

/// The fields of a struct that are shown. A field is `"NAME" = OFFSET, FORM;`, where `FORM` is a word of `field_form!`, and
/// `FORM as QUANTITY` says what its number counts (`Quantity`). `FORM, NAMES` gives the field names of its own, which must
/// be a constant.
#[macro_export]
macro_rules! fields {
    ($($name:literal = $offset:literal, $form:ident $(as $quantity:ident)? $(, $names:expr)?;)*) => {
        &[$($crate::rows::fields::Field {
            name: $name,
            offset: $offset,
            quantity: $crate::row_quantity!($($quantity)?),
            form: $crate::field_form!($form),
            names: $crate::field_names!($($names)?),
        },)*]
    };
}

/// The form of a field, by the word that stands for it in the tables of specs/.
#[macro_export]
macro_rules! field_form {
    (u8) => {
        $crate::number_form!(One Little Plain)
    };
    (u16) => {
        $crate::number_form!(Two Little Plain)
    };
    (u32) => {
        $crate::number_form!(Four Little Plain)
    };
    (u64) => {
        $crate::number_form!(Eight Little Plain)
    };
    (u16_be) => {
        $crate::number_form!(Two Big Plain)
    };
    (u32_be) => {
        $crate::number_form!(Four Big Plain)
    };
    (u64_be) => {
        $crate::number_form!(Eight Big Plain)
    };
    (u8_coded) => {
        $crate::number_form!(One Little Coded)
    };
    (u16_coded) => {
        $crate::number_form!(Two Little Coded)
    };
    (u32_coded) => {
        $crate::number_form!(Four Little Coded)
    };
    (u8_flags) => {
        $crate::number_form!(One Little Flags)
    };
    (u16_flags) => {
        $crate::number_form!(Two Little Flags)
    };
    (u32_flags) => {
        $crate::number_form!(Four Little Flags)
    };
    (u16_be_flags) => {
        $crate::number_form!(Two Big Flags)
    };
    (i32) => {
        $crate::rows::form::Form::Signed
    };
    (mac) => {
        $crate::rows::form::Form::Mac
    };
}

/// The form of a number.
#[macro_export]
macro_rules! number_form {
    ($width:ident $order:ident $role:ident) => {
        $crate::rows::form::Form::Number {
            width: $crate::rows::form::Width::$width,
            order: $crate::rows::form::Order::$order,
            role: $crate::rows::form::Role::$role,
        }
    };
}

/// The names of a field: none if its row gives none.
#[macro_export]
macro_rules! field_names {
    ($names:expr) => {
        $names
    };
    () => {
        &[]
    };
}
