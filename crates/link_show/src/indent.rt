//! The indents of lines.

ghost use Rattle.std.specs.Prelude.{OnOk, replicate};
ghost use Rattle.link_show.specs.Sink.{Gains};
ghost use Rattle.link_show.specs.Indents.{indent_text};

use crate::sink::Sink;

/// As many spaces as an indent has at most after its text.
static SPACES: [u8; 255] = [b' '; 255];

/// What a line starts with: a text, which is empty in messages, and this many spaces.
#[derive(Clone, Copy)]
pub(crate) struct Indent<'a> {
    pub(crate) text: &'a str,
    pub(crate) spaces: u8,
}

/// Writes an indent. That of most lines is a few spaces.
#[inline(always)]
pub(crate) fn write_indent<W: Sink>(writer: &mut W, indent: Indent<'_>) -> Result<(), W::Error>
    ensures { OnOk result (Gains (W.output writer.old) (W.output writer.new) (indent_text indent.entry)) }
{
    write_text(writer, indent.text)?;
    write_spaces(writer, indent.spaces)
}

#[inline(always)]
fn write_text<W: Sink>(writer: &mut W, text: &str) -> Result<(), W::Error>
    ensures { OnOk result (Gains (W.output writer.old) (W.output writer.new) text.now) }
{
    if text.is_empty() {
        return Ok(());
    }
    writer.put(text.as_bytes())
}

#[inline(always)]
fn write_spaces<W: Sink>(writer: &mut W, count: u8) -> Result<(), W::Error>
    ensures { OnOk result (Gains (W.output writer.old) (W.output writer.new) (replicate count 32)) }
{
    match count {
        2 => writer.put(b"  "),
        4 => writer.put(b"    "),
        6 => writer.put(b"      "),
        8 => writer.put(b"        "),
        _ => writer.put(&SPACES[..count as usize]),
    }
}
