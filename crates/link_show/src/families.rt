//! The lists of a `Family`.

ghost use Rattle.std.specs.Prelude.{IfOk};
ghost use Rattle.link_show.specs.List.{Writes};
ghost use Rattle.link_messages.specs.Held.{context_of};
ghost use Rattle.link_show.specs.Held.{ShowsChecked};

use crate::held::write_set;
use crate::line_options::LineOptions;
use crate::sink::Sink;
use crate::verdicts::write_verdict;
use link_messages::Payload;
use netlink_packet_route::Family;

/// Writes the lines of a list of a `Family`, and, if the options ask, a line that says whether it is canonical. There is a line
/// for each attribute, below a list the lines of that, and a line for each error, in order. A malformed attribute hides no
/// other; a malformed header ends its list. Lines start with `indent`, those below others with two spaces more; offsets of
/// errors count from the offset of `list`. Where the address family of a message decides which set reads a list, it is
/// AF_UNSPEC. Returns whether no line is an error, and the lists, if they are checked, are canonical.
///
/// # Errors
///
/// That of the writer.
pub fn write_family_list<W: Sink>(
    writer: &mut W,
    family: Family,
    options: LineOptions,
    indent: &str,
    list: Payload<'_>,
) -> Result<bool, W::Error>
    ensures { IfOk result (Writes (ShowsChecked options (context_of 0) indent.now list.entry.at family list.entry.bytes.now)
        (W.output writer.old) (W.output writer.new)) }
{
    let whole = write_set(writer, options, 0, indent, 0, family, list)?;
    if !options.check {
        return Ok(whole);
    }
    let canonical = write_verdict(writer, family, indent, list)?;
    Ok(whole & canonical)
}
