//! What the start of a unit says.

ghost use Rattle.std.specs.Prelude.{◌≡◌, ◌≤◌, length};
ghost use Rattle.link_capture.specs.Front.{head_of, head_size, front_of, whole_front, up_to_most, message_front, order_of, size_of, gap};
ghost use Rattle.link_capture.specs.declared.form.Form.TheVariants as forms;

use crate::error::{Head, InputError, Size};
use crate::form::{Form, SECTION};
use crate::order::Order;

/// The greatest length of a unit.
const MOST: usize = 1_048_576;

/// What the start of a unit says.
#[derive(Clone, Copy, Debug, PartialEq, Eq)]
pub(crate) enum Front {
    /// There are too few bytes to say.
    Short,
    /// The length of the unit, and that of the padding after it, which may be missing at the end of an input.
    Sized { length: usize, padding: usize },
    /// The unit has an error.
    Wrong(InputError),
}

impl Head {
    /// Returns the number of its bytes.
    pub(crate) fn size(self) -> usize
        ensures { result ≡ head_size self }
    {
        match self {
            Head::Pcap => 24,
            Head::Record | Head::Message => 16,
            Head::Block => 12,
        }
    }
}

impl Form {
    /// Returns what a unit begins with.
    pub(crate) fn head(self) -> Head
        ensures { result ≡ head_of self }
    {
        match self {
            Form::Pcap { .. } => Head::Pcap,
            Form::Records { .. } => Head::Record,
            Form::Blocks { .. } => Head::Block,
            Form::Messages => Head::Message,
        }
    }

    /// Returns what a length of a unit is called.
    pub(crate) fn size(self) -> Size
        ensures { result ≡ size_of self }
    {
        match self {
            Form::Pcap { .. } | Form::Records { .. } => Size::Record,
            Form::Blocks { .. } => Size::Block,
            Form::Messages => Size::Message,
        }
    }

    /// Returns what the start of the unit at the start of `bytes` says.
    pub(crate) fn front(self, bytes: &[u8]) -> Front
        ensures { result ≡ front_of self bytes.now }
    {
        if bytes.len() < self.head().size() {
            return Front::Short;
        }
        match self {
            Form::Pcap { .. } => Front::Sized {
                length: 24,
                padding: 0,
            },
            Form::Records { order, .. } => {
                up_to_most(Size::Record, 16 + order.u32_at(bytes, 8) as usize, 0)
            }
            Form::Blocks { order } => block_front(order, bytes),
            Form::Messages => message_front(Order::Little.u32_at(bytes, 0) as usize),
        }
    }
}

/// Returns a unit of this length, if it is not above the greatest.
fn up_to_most(size: Size, length: usize, padding: usize) -> Front
    ensures { result ≡ up_to_most size length padding }
{
    if length > MOST {
        return Front::Wrong(InputError::Large { size, length });
    }
    Front::Sized { length, padding }
}

fn block_front(order: Order, bytes: &[u8]) -> Front
    requires { 12 ≤ length bytes.now }
    ensures { result ≡ whole_front (forms.Blocks order) bytes.now }
{
    let Some(order) = order_of(order, bytes) else {
        return Front::Wrong(InputError::NoMagic);
    };
    let length = order.u32_at(bytes, 4) as usize;
    if length < 12 {
        return Front::Wrong(InputError::Small {
            size: Size::Block,
            length,
            least: 12,
        });
    }
    if length % 4 != 0 {
        return Front::Wrong(InputError::Odd { length });
    }
    up_to_most(Size::Block, length, 0)
}

/// Returns the order of a block: that of its byte-order magic, if it begins a section, otherwise `order`. Returns `None` if
/// a section header has no magic.
pub(crate) fn order_of(order: Order, bytes: &[u8]) -> Option<Order>
    requires { 12 ≤ length bytes.now }
    ensures { result ≡ order_of order bytes.now }
{
    if order.u32_at(bytes, 0) != SECTION {
        return Some(order);
    }
    match Order::Big.u32_at(bytes, 8) {
        0x4d3c_2b1a => Some(Order::Little),
        0x1a2b_3c4d => Some(Order::Big),
        _ => None,
    }
}

fn message_front(length: usize) -> Front
    ensures { result ≡ message_front length }
{
    if length < 16 {
        return Front::Wrong(InputError::Small {
            size: Size::Message,
            length,
            least: 16,
        });
    }
    up_to_most(Size::Message, length, gap(length))
}

/// Returns the number of bytes to the next multiple of four.
pub(crate) fn gap(length: usize) -> usize
    ensures { result ≡ gap length }
{
    (4 - length % 4) % 4
}
