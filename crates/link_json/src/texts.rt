//! The texts in a document.

ghost use Rattle.std.specs.Prelude.{◌≡◌, ◌++◌, ◌∷◌, [], OnOk, decimal};
ghost use Rattle.hex.specs.Hex.{encode_lower};
ghost use Rattle.json.specs.Token.{string};
ghost use Rattle.json.specs.Tree.{json_tokens};
ghost use Rattle.netlink_packet_route.specs.Family.{table_of};
ghost use Rattle.link_show.specs.Fault.{fault_text};
ghost use Rattle.link_show.specs.List.{ip_text};
ghost use Rattle.link_show.specs.Message.{reason_text};
ghost use Rattle.link_show.specs.Printable.{IsText};
ghost use Rattle.link_show.specs.Structs.{bridge_id_text};
ghost use Rattle.link_json.specs.Names.{short_name, without};
ghost use Rattle.link_json.specs.Value.{text_json, hex_json, opaque_json, address_json};

use crate::document::Document;
use json::Writer;
use link_base::DecodeFault;
use link_base::rows::form::Layout;
use link_messages::MessageError;
use link_show::{write_address, write_fault, write_ip, write_reason, write_struct};
use netlink_packet_route::{Family, FamilySet};
use std::alloc::{AllocError, Global};
use std::str;

impl Document {
    /// Writes a text; an object with its bytes in hexadecimal, if it is not UTF-8.
    ///
    /// # Errors
    ///
    /// `AllocError` if an allocation fails.
    pub fn text(&mut self, bytes: &[u8]) -> Result<(), AllocError>
        ensures { OnOk result (self.new ≡ self.old ++ json_tokens (text_json bytes.now)) }
    {
        match str::from_utf8(bytes) {
            Ok(text) => self.string(text),
            Err(_) => self.opaque(bytes),
        }
    }

    /// Writes an object with bytes in hexadecimal.
    pub(crate) fn opaque(&mut self, bytes: &[u8]) -> Result<(), AllocError>
        ensures { OnOk result (self.new ≡ self.old ++ json_tokens (opaque_json bytes.now)) }
    {
        self.begin_object()?;
        self.key("hex")?;
        self.hex(bytes)?;
        self.end_object()
    }

    /// Writes bytes in hexadecimal.
    pub(crate) fn hex(&mut self, bytes: &[u8]) -> Result<(), AllocError>
        ensures { OnOk result (self.new ≡ self.old ++ json_tokens (hex_json bytes.now)) }
    {
        store_hex(&mut self.text, bytes)?;
        push(&mut self.writer, &self.text)
    }

    /// Writes a hardware address of any length.
    pub(crate) fn address(&mut self, bytes: &[u8]) -> Result<(), AllocError>
        ensures { OnOk result (self.new ≡ self.old ++ json_tokens (address_json bytes.now)) }
    {
        if bytes.is_empty() {
            return self.string("");
        }
        self.text.clear();
        match write_address(&mut self.text, bytes) {
            Ok(()) => push(&mut self.writer, &self.text),
            Err(_) => Err(AllocError),
        }
    }

    /// Writes an IP address.
    pub(crate) fn ip(&mut self, bytes: &[u8]) -> Result<(), AllocError>
        ensures { OnOk result (self.new ≡ self.old ++ string (ip_text bytes.now) ∷ []) }
    {
        self.text.clear();
        match write_ip(&mut self.text, bytes) {
            Ok(()) => push(&mut self.writer, &self.text),
            Err(_) => Err(AllocError),
        }
    }

    /// Writes a bridge identifier, such as `8000.02:00:00:00:00:01`.
    pub(crate) fn bridge_id(&mut self, bytes: &[u8]) -> Result<(), AllocError>
        ensures { OnOk result (self.new ≡ self.old ++ string (bridge_id_text bytes.now) ∷ []) }
    {
        self.text.clear();
        match write_struct(&mut self.text, Layout::BridgeId, &[], &[], bytes) {
            Ok(()) => push(&mut self.writer, &self.text),
            Err(_) => Err(AllocError),
        }
    }

    /// Writes a number as a text.
    pub(crate) fn digits(&mut self, number: u64) -> Result<(), AllocError>
        ensures { OnOk result (self.new ≡ self.old ++ string (decimal number) ∷ []) }
    {
        self.writer.quoted_u64(number)
    }

    /// Writes an error of a list of a `Family`.
    pub(crate) fn fault(&mut self, family: Family, fault: DecodeFault) -> Result<(), AllocError>
        ensures { OnOk result (self.new ≡ self.old ++ string (fault_text (table_of family) fault) ∷ []) }
    {
        self.text.clear();
        match write_fault(&mut self.text, FamilySet { family }, fault) {
            Ok(()) => push(&mut self.writer, &self.text),
            Err(_) => Err(AllocError),
        }
    }

    /// Writes an error of a message.
    pub(crate) fn reason(&mut self, error: MessageError) -> Result<(), AllocError>
        ensures { OnOk result (self.new ≡ self.old ++ string (reason_text error) ∷ []) }
    {
        self.text.clear();
        match write_reason(&mut self.text, error) {
            Ok(()) => push(&mut self.writer, &self.text),
            Err(_) => Err(AllocError),
        }
    }

    /// Writes the name of an attribute type: `name` without `prefix`, in lower case.
    pub(crate) fn short_name(&mut self, prefix: &str, name: &str) -> Result<(), AllocError>
        ensures { OnOk result (self.new ≡ self.old ++ string (short_name prefix.now name.now) ∷ []) }
    {
        self.name.clear();
        self.name.push_str(without(prefix, name))?;
        self.name.make_ascii_lowercase();
        self.writer.string(&self.name)
    }
}

/// Stores bytes in hexadecimal.
fn store_hex(text: &mut Vec<u8>, bytes: &[u8]) -> Result<(), AllocError>
    ensures { OnOk result (text.new.items ≡ encode_lower bytes.now) }
{
    text.clear();
    text.resize(2 * bytes.len(), 0)?;
    match hex::encode_to_slice(bytes, text) {
        Ok(()) => Ok(()),
        Err(_) => Err(AllocError),
    }
}

/// Returns what follows a prefix; the whole text, if it does not begin with that.
fn without<'a>(prefix: &str, text: &'a str) -> &'a str
    ensures { result.now ≡ without prefix.now text.now }
{
    match text.strip_prefix(prefix) {
        Some(rest) => rest,
        None => text,
    }
}

/// Writes a printable text.
fn push(writer: &mut Writer<Global>, text: &[u8]) -> Result<(), AllocError>
    requires { IsText text.now }
    ensures tokens { OnOk result (writer.new.tokens ≡ writer.old.tokens ++ string text.now ∷ []) }
    ensures before { writer.new.before ≡ writer.old.before }
{
    match str::from_utf8(text) {
        Ok(text) => writer.string(text),
        Err(_) => Err(AllocError),
    }
}
