//! Worked examples of the definitions, with small tables. The functions have empty bodies; each states its examples as
//! clauses of its contract.

ghost use Rattle.std.specs.Prelude.{◌≡◌, true, false, [], ◌∷◌, codes};
ghost use Rattle.link_base.specs.declared.wire.fault.Cause.TheVariants.{ShortFrame, SmallLength, Overrun, WrongLength};
ghost use Rattle.link_base.specs.declared.wire.fault.DecodeFault.TheVariants as faults;
ghost use Rattle.link_base.specs.declared.rows.form.Form.TheVariants as forms;
ghost use Rattle.link_base.specs.declared.rows.form.Order.TheVariants as orders;
ghost use Rattle.link_base.specs.declared.rows.form.Role.TheVariants as roles;
ghost use Rattle.link_base.specs.declared.rows.form.Layout.TheVariants as layouts;
ghost use Rattle.link_base.specs.declared.rows.form.Width.TheVariants as widths;
ghost use Rattle.link_base.specs.declared.classes.lengths.Lengths.TheVariants as lengths;
ghost use Rattle.link_base.specs.Name.{name_of, name_field};
ghost use Rattle.link_base.specs.Class.{Number, Boolean, Raw, Nothing, Unsigned, Truth, Octets, Fixed, AtMost, Named};
ghost use Rattle.link_base.specs.Wire.{FirstFault};
ghost use Rattle.link_base.specs.Table.{Gives, Case, Other, Single, Inner, One, Nested, Addresses};
ghost use Rattle.link_base.specs.Examples.{ReadsAndWrites, numbers, addresses, lists, pairs, flags, after_letters};
ghost use Rattle.link_base.specs.Examples.{IsRefused, one_row, arrays, nameless};

/// States the values of seven lists, and the bytes that are written for them.
///
/// - `number`: A number is written unchanged.
/// - `unknown_kind`: An attribute whose type has no row keeps its flags and its payload. The missing padding is
///   written.
/// - `ignored_payload`: A payload without a meaning is dropped: the attribute is written with an empty payload.
/// - `empty_list`: An empty list is accepted without the nested flag, and is written with it.
/// - `flag`: A flag without a payload is written without one.
/// - `flag_byte`: A flag with a byte that is not zero is written with the byte 1.
/// - `text`: A text is written with the NUL at its end.
pub fn values()
    ensures number { ReadsAndWrites numbers (0x08 ∷ 0 ∷ 1 ∷ 0 ∷ 0x2a ∷ 0 ∷ 0 ∷ 0 ∷ [])
        (Case 1 (Single (Number 4 42)) ∷ []) (0x08 ∷ 0 ∷ 1 ∷ 0 ∷ 0x2a ∷ 0 ∷ 0 ∷ 0 ∷ []) }
    ensures unknown_kind { ReadsAndWrites pairs (0x06 ∷ 0 ∷ 0x63 ∷ 0xc0 ∷ 0xde ∷ 0xad ∷ [])
        (Other 0xC063 (0xde ∷ 0xad ∷ []) ∷ []) (0x06 ∷ 0 ∷ 0x63 ∷ 0xc0 ∷ 0xde ∷ 0xad ∷ 0 ∷ 0 ∷ []) }
    ensures ignored_payload { ReadsAndWrites lists (0x07 ∷ 0 ∷ 0x15 ∷ 0 ∷ 1 ∷ 2 ∷ 3 ∷ 0 ∷ [])
        (Case 21 (Single Nothing) ∷ []) (0x04 ∷ 0 ∷ 0x15 ∷ 0 ∷ []) }
    ensures empty_list { ReadsAndWrites lists (0x04 ∷ 0 ∷ 0x2f ∷ 0 ∷ [])
        (Case 47 (Inner true []) ∷ []) (0x04 ∷ 0 ∷ 0x2f ∷ 0x80 ∷ []) }
    ensures flag { ReadsAndWrites flags (0x04 ∷ 0 ∷ 5 ∷ 0 ∷ [])
        (Case 5 (Single Nothing) ∷ []) (0x04 ∷ 0 ∷ 5 ∷ 0 ∷ []) }
    ensures flag_byte { ReadsAndWrites flags (0x05 ∷ 0 ∷ 5 ∷ 0 ∷ 7 ∷ 0 ∷ 0 ∷ 0 ∷ [])
        (Case 5 (Single (Boolean true)) ∷ []) (0x05 ∷ 0 ∷ 5 ∷ 0 ∷ 1 ∷ 0 ∷ 0 ∷ 0 ∷ []) }
    ensures text { ReadsAndWrites flags (0x07 ∷ 0 ∷ 6 ∷ 0 ∷ 0x67 ∷ 0x72 ∷ 0 ∷ 0 ∷ [])
        (Case 6 (Single (Raw (0x67 ∷ 0x72 ∷ 0 ∷ []))) ∷ []) (0x07 ∷ 0 ∷ 6 ∷ 0 ∷ 0x67 ∷ 0x72 ∷ 0 ∷ 0 ∷ []) }
{}

/// States the first error of seven lists, and its offset.
///
/// - `address_overrun`: In an address list, the `nla_len` of an element exceeds what is left of the list.
/// - `value_before_frame`: A malformed payload is reported before a malformed header that follows it.
/// - `short_frame`: A byte after a complete attribute is not padding.
/// - `small_length`: `nla_len` is less than the length of the header.
/// - `overrun`: `nla_len` exceeds what is left of the input.
/// - `nested_value`: In a nested list, the payload of an element is malformed.
/// - `long_flag`: A flag has two bytes.
pub fn faults()
    ensures address_overrun { FirstFault (Gives addresses) (0x0a ∷ 0 ∷ 8 ∷ 0 ∷ 9 ∷ 0 ∷ 0 ∷ 0 ∷ 0x0a ∷ 0 ∷ 0 ∷ 0 ∷ []) 0
        (faults.NestedFrame 8 (Overrun 9 6)) }
    ensures value_before_frame { FirstFault (Gives numbers) (0x05 ∷ 0 ∷ 1 ∷ 0 ∷ 0x2a ∷ 0 ∷ 0 ∷ 0 ∷ 3 ∷ 0 ∷ []) 0
        (faults.Value 1 (WrongLength 4 1)) }
    ensures short_frame { FirstFault (Gives numbers) (0x08 ∷ 0 ∷ 1 ∷ 0 ∷ 0x2a ∷ 0 ∷ 0 ∷ 0 ∷ 0 ∷ []) 8
        (faults.Frame (ShortFrame 1)) }
    ensures small_length { FirstFault (Gives numbers) (0 ∷ 0 ∷ 1 ∷ 0 ∷ []) 0 (faults.Frame (SmallLength 0)) }
    ensures overrun { FirstFault (Gives numbers) (0x09 ∷ 0 ∷ 1 ∷ 0 ∷ 0x2a ∷ 0 ∷ 0 ∷ 0 ∷ []) 0
        (faults.Frame (Overrun 9 8)) }
    ensures nested_value { FirstFault (Gives pairs)
        (0x0f ∷ 0 ∷ 3 ∷ 0 ∷ 0x0b ∷ 0 ∷ 1 ∷ 0 ∷ 1 ∷ 0 ∷ 0 ∷ 0 ∷ 2 ∷ 0 ∷ 0 ∷ 0 ∷ []) 0
        (faults.NestedValue 3 1 (WrongLength 8 7)) }
    ensures long_flag { FirstFault (Gives flags) (0x06 ∷ 0 ∷ 5 ∷ 0 ∷ 1 ∷ 1 ∷ 0 ∷ 0 ∷ []) 0
        (faults.Value 5 (WrongLength 1 2)) }
{}

/// A name field of 16 bytes loses its last byte. What is left of the truncated character becomes U+FFFD, which is
/// truncated in turn. From then on the field does not change.
pub fn cut_names()
    ensures first { name_field (name_of (after_letters (0xe4 ∷ 0xbd ∷ 0xa0 ∷ [])))
        ≡ after_letters (0xe4 ∷ 0xbd ∷ 0x00 ∷ []) }
    ensures second { name_field (name_of (after_letters (0xe4 ∷ 0xbd ∷ 0x00 ∷ [])))
        ≡ after_letters (0xef ∷ 0xbf ∷ 0x00 ∷ []) }
    ensures third { name_field (name_of (after_letters (0xef ∷ 0xbf ∷ 0x00 ∷ [])))
        ≡ after_letters (0xef ∷ 0xbf ∷ 0x00 ∷ []) }
{}

/// Rows that a table may not have, since form, names and payloads do not go together, or a name cannot be printed.
///
/// - `width`: A number is said to have one byte, but its payloads have two.
/// - `order`: A number is said to be in network byte order, but its payloads are not.
/// - `layout`: A clock is said to have eight bytes.
/// - `flag`: A boolean is said to be a flag that may have no byte.
/// - `short_struct`: A struct may have fewer bytes than it has.
/// - `number_names`: An enum has a name for 1, but its payloads none.
/// - `list_flag`: A list is written with the nested flag, though its form says otherwise.
/// - `address_size`: Addresses of four bytes are said to have sixteen.
/// - `list_of_arrays`: A nested list holds an array.
/// - `text`: The name is a line end.
pub fn refused_rows()
    ensures width { IsRefused (one_row (forms.Number widths.One orders.Little roles.Plain) [] (One (Unsigned 2))) }
    ensures order { IsRefused (one_row (forms.Number widths.Two orders.Big roles.Plain) [] (One (Unsigned 2))) }
    ensures layout { IsRefused (one_row (forms.Struct layouts.Clock) [] (One (Octets (Fixed 8)))) }
    ensures flag { IsRefused (one_row forms.FlagOrBool [] (One Truth)) }
    ensures short_struct { IsRefused (one_row (forms.Struct (layouts.Other (lengths.AtMost 4))) [] (One (Octets (AtMost 4)))) }
    ensures number_names { IsRefused (one_row (forms.Number widths.One orders.Little roles.Enum) ((1, codes "one") ∷ []) (One (Named 1 []))) }
    ensures list_flag { IsRefused (one_row (forms.List false) [] (Nested true [])) }
    ensures address_size { IsRefused (one_row (forms.Addresses 4) [] (Addresses 16)) }
    ensures list_of_arrays { IsRefused arrays }
    ensures text { IsRefused nameless }
{}
