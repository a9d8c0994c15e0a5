//! Theorems about texts, and about messages and the lists in them. The functions have empty bodies; each states its theorem as
//! its contract.

ghost use Rattle.std.specs.Prelude.{◌≡◌, ◌≢◌, ◌<◌, ◌^◌, ℕ, Bool, List, ◌∷◌, true, length, slice_get, Option, Some, Result, Ok, Err};
ghost use Rattle.std.specs.Fmt.{decimal};
ghost use Rattle.std.specs.List.{AllZip, AllByRecursion};
ghost use Rattle.link_base.specs.declared.wire.buffer.NlaBuffer.{NlaBuffer};
ghost use Rattle.link_base.specs.declared.views.content.Content.TheVariants as contents;
ghost use Rattle.link_base.specs.declared.rows.form.Form.TheVariants as forms;
ghost use Rattle.link_base.specs.declared.rows.form.ArrayOf.{ArrayOf};
ghost use Rattle.link_base.specs.declared.rows.form.Width.{Width};
ghost use Rattle.link_base.specs.declared.rows.form.Order.{Order};
ghost use Rattle.link_base.specs.declared.rows.form.Role.TheVariants as roles;
ghost use Rattle.link_base.specs.declared.names.vlan_protocol.VlanProtocol.{VlanProtocol};
ghost use Rattle.link_base.specs.Borrowed.{elements_at};
ghost use Rattle.link_base.specs.Fields.{FieldRow};
ghost use Rattle.link_base.specs.Forms.{size_in};
ghost use Rattle.link_base.specs.Number.{IsBytes, bound};
ghost use Rattle.link_base.specs.Protocol.{protocol_number};
ghost use Rattle.link_base.specs.Table.{Table, Label, Gives, form_at};
ghost use Rattle.link_base.specs.Wire.{FirstFault};
ghost use Rattle.link_show.specs.Flags.{flags_text};
ghost use Rattle.link_show.specs.Text.{hex_number};
ghost use Rattle.link_show.specs.Value.{content_text};
ghost use Rattle.netlink_packet_route.specs.declared.family.Family.{Family};
ghost use Rattle.netlink_packet_route.specs.Family.{table_of};
ghost use Rattle.link_entries.specs.declared.entry.Entry.{Entry};
ghost use Rattle.link_entries.specs.declared.misfit.Misfit.{Misfit};
ghost use Rattle.link_entries.specs.Fields.{row_fields};
ghost use Rattle.link_entries.specs.Payload.{form_in};
ghost use Rattle.link_entries.specs.Encoded.{encoded_by};
ghost use Rattle.link_entries.specs.Flat.{Flat, IsElement, number_entry, address_entry};
ghost use Rattle.netlink_packet_route.specs.declared.link.DecodeFault.{DecodeFault};
ghost use Rattle.nlroute_ffi.specs.declared.fault.FirstError.{FirstError};
ghost use Rattle.nlroute_ffi.specs.Numbers.{fault_numbers};
ghost use Rattle.nlroute_ffi.specs.Error.{error_numbers, ErrorAnswers};
ghost use Rattle.nlroute_ffi.specs.ErrorText.{IsListFault, FaultOccurs, fault_of, message_error_of, ErrorTextAnswers};
ghost use Rattle.nlroute_ffi.specs.declared.message.FoundMessage.{FoundMessage};
ghost use Rattle.netlink_packet_route.specs.declared.opening.Context.{Context};
ghost use Rattle.nlroute_ffi.specs.Opens.{HeadOpens, TailOpens};
ghost use Rattle.nlroute_ffi.specs.Messages.{ReadsMessage, MessageErrorAnswers};
ghost use Rattle.link_messages.specs.declared.message.MessageError.{MessageError};
ghost use Rattle.nlroute_ffi.specs.Names.{label_for, number_name, bit_names_by, flag_name};
ghost use Rattle.nlroute_ffi.specs.Timing.{shown_fields};
ghost use Rattle.nlroute_ffi.specs.ValueText.{own_label, entry_payload, IsEntryText, TextAnswers};
ghost use Rattle.nlroute_ffi.specs.StructFields.{field_form, is_named, NameFields};
ghost use Rattle.nlroute_ffi.specs.Writing.{refusal_for};
ghost use Rattle.nlroute_ffi.specs.Shown.{IsAt, IsTextOf, HeadHasText, HasText, HeadHasSomeText, IsWithName, IsByName};

use crate::refusal::Refusal;

/// States that the text of the entry of each attribute of a list is the one that `link_show` specifies for the attribute; an
/// array of numbers has none.
pub fn texts_of_attributes()
    ensures { (family : Family) (list : List ℕ) (es : List Entry) → IsBytes list → (flat : Flat (table_of family) list es)
        → AllZip (HeadHasText family list) flat.items flat.groups }
{}

/// States the same of each element of a nested list.
pub fn texts_of_elements()
    ensures { (family : Family) (list : List ℕ) (kind offset : ℕ) (flagged : Bool) (b : NlaBuffer) (e : Entry)
        → IsBytes list → form_at (table_of family) kind ≡ Some (forms.List flagged) → IsAt list offset b
        → IsElement (elements_at (table_of family) kind) kind offset b e → (words : List ℕ) → IsEntryText family e list words
        → IsTextOf (elements_at (table_of family) kind) b words }
{}

/// States that the struct with the numbers of an error in a list has the text of that error.
pub fn errors_in_structs()
    ensures { (e : FirstError) (at : ℕ) (fault : DecodeFault) → IsListFault fault
        → error_numbers e ≡ fault_numbers at fault → (e.at ≡ at) × (fault_of e ≡ Some fault) }
{}

/// States that the first error of a list is one that a struct has numbers for, and not that of the length of an address; that
/// the struct in which `nlroute_first_fault` stored it has that error; and that `nlroute_fault_text` does not return -7 for
/// this struct.
pub fn first_errors()
    ensures listed { (table : Table) (s : List ℕ) (at : ℕ) (fault : DecodeFault) → IsBytes s
        → FirstFault (Gives table) s at fault → IsListFault fault }
    ensures occurs { (table : Table) (s : List ℕ) (at : ℕ) (fault : DecodeFault) → IsBytes s
        → FirstFault (Gives table) s at fault → FaultOccurs fault }
    ensures stored { (table : Table) (s : List ℕ) (e : FirstError) (n : ℕ) → IsBytes s → ErrorAnswers s e table (Ok n)
        → (at : ℕ) × (fault : DecodeFault) × FirstFault (Gives table) s at fault × (e.at ≡ at) × (fault_of e ≡ Some fault) }
    ensures printed { (family other : Family) (s : List ℕ) (e : FirstError) (n : ℕ) (old new : List ℕ) (result : Result ℕ Refusal)
        → IsBytes s → ErrorAnswers s e (table_of family) (Ok n) → ErrorTextAnswers e old new other result
        → result ≢ Err Refusal.BadForm }
{}

/// States that the set that `nlroute_opens` returns for an entry of a list is the one that reads the list in its attribute, or in
/// its element of a nested list, in a walk through the message.
pub fn opened_values()
    ensures attributes { (context : Context) (family : Family) (list : List ℕ) (es : List Entry)
        → (flat : Flat (table_of family) list es) → AllZip (HeadOpens context family list) flat.items flat.groups }
    ensures elements { (context : Context) (family : Family) (list : List ℕ) (es : List Entry)
        → (flat : Flat (table_of family) list es) → AllZip (TailOpens context family list) flat.items flat.groups }
{}

/// States that `nlroute_message_fault` finds an error if and only if `nlroute_read_message` returns -1: what is at an offset of
/// a buffer is not both well-formed and malformed.
pub fn one_message()
    ensures { (at : ℕ) (r : List ℕ) (found : Option FoundMessage) (e : MessageError) → ReadsMessage at r (Ok found)
        → ReadsMessage at r (Err e) → ⊥ }
{}

/// States that the struct in which `nlroute_message_fault` stored why a message is malformed has this error, and that
/// `nlroute_fault_text` does not return -7 for this struct.
pub fn errors_of_messages()
    ensures stored { (at : ℕ) (r : List ℕ) (x : FirstError) (n : ℕ) → IsBytes r → MessageErrorAnswers at r x (Ok n)
        → (e : MessageError) × ReadsMessage at r (Err e) × (message_error_of x ≡ Some e) }
    ensures printed { (at : ℕ) (r : List ℕ) (x : FirstError) (n : ℕ) (family : Family) (old new : List ℕ) (result : Result ℕ Refusal)
        → IsBytes r → MessageErrorAnswers at r x (Ok n) → ErrorTextAnswers x old new family result
        → result ≢ Err Refusal.BadForm }
{}

/// States that a number has the name that `link_show` writes before it: of an enum, or a VLAN protocol.
pub fn names_of_numbers()
    ensures enums { (label : Label) (n : ℕ) (width : Width) (order : Order)
        → label.form ≡ forms.Number width order roles.Enum
        → IsWithName (number_name (Some label) n) (decimal n) (content_text label (contents.Number n width order roles.Enum)) }
    ensures coded { (label : Label) (n : ℕ) (width : Width) (order : Order)
        → label.form ≡ forms.Number width order roles.Coded
        → IsWithName (number_name (Some label) n) (decimal n) (content_text label (contents.Number n width order roles.Coded)) }
    ensures protocols { (family : Family) (e : Entry) (label : Label) (p : VlanProtocol) → label_for family e ≡ Some label
        → label.form ≡ forms.Protocol
        → IsWithName (number_name (Some label) (protocol_number p)) (hex_number (protocol_number p))
        (content_text label (contents.Protocol p)) }
{}

/// States that a bit has the name that `link_show` writes for a set of flags with this bit only, of any width.
pub fn names_of_bits()
    ensures { (family : Family) (e : Entry) (label : Label) (bit width : ℕ) → label_for family e ≡ Some label → bit < 64
        → IsByName (flag_name (Some label) bit) (hex_number (2 ^ bit))
        (flags_text (bit_names_by label.form label) width (2 ^ bit)) }
{}

/// States that the entry of each attribute of a list, and that of each element of a nested list, an array or a list of
/// addresses, has a text: `nlroute_text` returns no error for them.
pub fn entries_have_texts()
    ensures attributes { (family : Family) (list : List ℕ) (es : List Entry) → IsBytes list → (flat : Flat (table_of family) list es)
        → AllZip (HeadHasSomeText family list) flat.items flat.groups }
    ensures elements { (family : Family) (list : List ℕ) (kind offset : ℕ) (flagged : Bool) (b : NlaBuffer) (e : Entry)
        → IsBytes list → form_at (table_of family) kind ≡ Some (forms.List flagged) → IsAt list offset b
        → IsElement (elements_at (table_of family) kind) kind offset b e → HasText family list e }
    ensures numbers { (family : Family) (list : List ℕ) (of : ArrayOf) (kind at i n : ℕ)
        → form_at (table_of family) kind ≡ Some (forms.Numbers of) → n < bound (size_in of)
        → HasText family list (number_entry kind at of i n) }
    ensures addresses { (family : Family) (list : List ℕ) (kind i offset : ℕ) (octets : List ℕ)
        → form_at (table_of family) kind ≡ Some (forms.Addresses (length octets))
        → HasText family list (address_entry kind i offset octets) }
{}

/// States that what `nlroute_write` is going to write can be printed: each entry of a list that it writes has a text. And
/// that it refuses an attribute for which `nlroute_text` returns an error, with the same error.
pub fn texts_and_writing()
    ensures written { (family : Family) (octets written : List ℕ) (es : List Entry)
        → encoded_by (table_of family) octets es ≡ Ok written → AllByRecursion (HasText family octets) es }
    ensures refused { (family : Family) (octets old new : List ℕ) (e : Entry) (es : List Entry) (refusal : Refusal)
        → e.depth ≡ 0 → TextAnswers e octets old new family (Err refusal)
        → (misfit : Misfit) × (encoded_by (table_of family) octets (e ∷ es) ≡ Err (0, misfit)) × (refusal ≡ refusal_for misfit) }
{}

/// States that each field of a struct has the form of an attribute whose values have the field's form, and a name that is not
/// cut.
pub fn rows_of_fields()
    ensures { (family : Family) (e : Entry) (label : Option Label) (i : ℕ) (f : FieldRow) → own_label family e ≡ Ok label
        → slice_get (shown_fields label) i ≡ Some f → (field_form f.form ≡ form_in (row_fields f.form)) × (length f.name < 32) }
{}

/// States that the text of a struct names the fields that `nlroute_read_field` stores, in their order, each with what its
/// bytes hold; but for the ID of a bridge, whose text has no names.
pub fn fields_in_texts()
    ensures { (family : Family) (e : Entry) (octets words : List ℕ) (label : Label) (i : ℕ) (f : FieldRow) → length e.octets ≡ 16
        → own_label family e ≡ Ok (Some label) → is_named label.form ≡ true → slice_get label.fields i ≡ Some f
        → IsEntryText family e octets words → NameFields label (entry_payload family e octets) words }
{}
