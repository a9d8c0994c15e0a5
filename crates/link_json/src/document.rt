//! A document that is being written.

ghost use Rattle.std.specs.Prelude.{◌≡◌, ◌<◌, ◌++◌, ◌∷◌, [], List, OnOk, decimal};
ghost use Rattle.std.specs.Io.KnownBytes.{Appends};
ghost use Rattle.json.specs.Lex.{tokens};
ghost use Rattle.json.specs.Print.{print};
ghost use Rattle.json.specs.Token.{Token, tokens_code, begin_object, end_object, begin_array, end_array, key, string, boolean, null};
ghost use Rattle.json.specs.Tree.{json_tokens};
ghost use Rattle.link_json.specs.Doc.{number_json, signed_json};

use json::Writer;
use std::alloc::{AllocError, Global};
use std::io::Write;
use std::marker::Model;
use std::{io, mem};

/// A document that is being written: its tokens so far. A call that fails is out of memory; a part of what it writes may
/// then be there.
#[derive(Drop)]
pub struct Document {
    pub(crate) writer: Writer<Global>,
    /// The text of a token, before it is written.
    pub(crate) text: Vec<u8>,
    /// The name of an attribute, before it is written.
    pub(crate) name: String,
}

impl Model for Document {
    ghost Value = { List Token };

    ghost coded = { tokens_code };

    ghost view = { λ s. s.writer.tokens };

    ghost invariant = { λ s. s.writer.before ≡ [] };
}

impl Document {
    /// Returns an empty document.
    pub fn new(alloc: Global) -> Self
        ensures { result ≡ [] }
    {
        Document {
            writer: Writer::new(Vec::new(alloc)),
            text: Vec::new(alloc),
            name: String::new(alloc),
        }
    }

    /// Writes the document as a line, whose tokens are its own, and clears it.
    ///
    /// # Errors
    ///
    /// That of the writer.
    pub(crate) fn write_line<W: Write>(&mut self, alloc: Global, writer: &mut W) -> io::Result<()>
        ensures line { OnOk result (Appends (W.contents writer.old) (W.contents writer.new) (print self.old ++ 10 ∷ [])) }
        ensures reads_back { tokens (print self.old) ≡ self.old }
        ensures cleared { self.new ≡ [] }
    {
        let line = self.take(alloc);
        let result = write_with_end(writer, &line);
        self.reuse(line);
        result
    }

    /// Clears the document.
    pub fn clear(&mut self, alloc: Global)
        ensures { self.new ≡ [] }
    {
        let line = self.take(alloc);
        self.reuse(line);
    }

    /// Returns the text of the document, whose tokens are its own.
    fn take(&mut self, alloc: Global) -> Vec<u8>
        ensures text { result.items ≡ print self.old }
        ensures reads_back { tokens (print self.old) ≡ self.old }
    {
        mem::replace(&mut self.writer, Writer::new(Vec::new(alloc))).into_inner()
    }

    /// Clears the document, which then uses the memory of `line`.
    fn reuse(&mut self, mut line: Vec<u8>)
        ensures { self.new ≡ [] }
    {
        line.clear();
        self.writer = Writer::new(line);
    }

    /// Begins an object.
    ///
    /// # Errors
    ///
    /// `AllocError` if an allocation fails.
    pub fn begin_object(&mut self) -> Result<(), AllocError>
        ensures { OnOk result (self.new ≡ self.old ++ begin_object ∷ []) }
    {
        self.writer.begin_object()
    }

    /// Ends an object.
    ///
    /// # Errors
    ///
    /// `AllocError` if an allocation fails.
    pub fn end_object(&mut self) -> Result<(), AllocError>
        ensures { OnOk result (self.new ≡ self.old ++ end_object ∷ []) }
    {
        self.writer.end_object()
    }

    /// Begins an array.
    pub(crate) fn begin_array(&mut self) -> Result<(), AllocError>
        ensures { OnOk result (self.new ≡ self.old ++ begin_array ∷ []) }
    {
        self.writer.begin_array()
    }

    /// Ends an array.
    pub(crate) fn end_array(&mut self) -> Result<(), AllocError>
        ensures { OnOk result (self.new ≡ self.old ++ end_array ∷ []) }
    {
        self.writer.end_array()
    }

    /// Writes the key of a member.
    ///
    /// # Errors
    ///
    /// `AllocError` if an allocation fails.
    pub fn key(&mut self, name: &str) -> Result<(), AllocError>
        ensures { OnOk result (self.new ≡ self.old ++ key name.now ∷ []) }
    {
        self.writer.key(name)
    }

    /// Writes a number. Most have one digit.
    ///
    /// # Errors
    ///
    /// `AllocError` if an allocation fails.
    #[inline(always)]
    pub fn number(&mut self, n: u64) -> Result<(), AllocError>
        ensures { OnOk result (self.new ≡ self.old ++ json_tokens (number_json n)) }
    {
        if n < 10 {
            return self.writer.number(digit(n));
        }
        self.any_number(n)
    }

    #[inline(never)]
    fn any_number(&mut self, n: u64) -> Result<(), AllocError>
        ensures { OnOk result (self.new ≡ self.old ++ json_tokens (number_json n)) }
    {
        self.writer.u64(n)
    }

    /// Writes a number that may be negative.
    #[inline(always)]
    pub(crate) fn signed(&mut self, n: i32) -> Result<(), AllocError>
        ensures { OnOk result (self.new ≡ self.old ++ json_tokens (signed_json n)) }
    {
        if n >= 0 {
            return self.number(n as u64);
        }
        self.writer.i64(n.into())
    }

    /// Writes a boolean.
    ///
    /// # Errors
    ///
    /// `AllocError` if an allocation fails.
    pub fn boolean(&mut self, b: bool) -> Result<(), AllocError>
        ensures { OnOk result (self.new ≡ self.old ++ boolean b ∷ []) }
    {
        self.writer.boolean(b)
    }

    /// Writes a text.
    ///
    /// # Errors
    ///
    /// `AllocError` if an allocation fails.
    pub fn string(&mut self, text: &str) -> Result<(), AllocError>
        ensures { OnOk result (self.new ≡ self.old ++ string text.now ∷ []) }
    {
        self.writer.string(text)
    }

    /// Writes null.
    ///
    /// # Errors
    ///
    /// `AllocError` if an allocation fails.
    pub fn null(&mut self) -> Result<(), AllocError>
        ensures { OnOk result (self.new ≡ self.old ++ null ∷ []) }
    {
        self.writer.null()
    }
}

/// Returns a number of one digit.
#[inline(always)]
#[tactic(auto, using(std::proofs::lemmas::Fmt::decimal_digit))]
fn digit(n: u64) -> &'static str
    requires { n < 10 }
    ensures { result.now ≡ decimal n }
{
    match n {
        0 => "0",
        1 => "1",
        2 => "2",
        3 => "3",
        4 => "4",
        5 => "5",
        6 => "6",
        7 => "7",
        8 => "8",
        _ => "9",
    }
}

/// Writes a line.
fn write_with_end<W: Write>(writer: &mut W, line: &[u8]) -> io::Result<()>
    ensures { OnOk result (Appends (W.contents writer.old) (W.contents writer.new) (line.now ++ 10 ∷ [])) }
{
    writer.write_all(line)?;
    writer.write_all(b"\n")
}
