//! Captures: the units of an input, one at a time.

ghost use Rattle.std.specs.Prelude.{◌≡◌, ◌≢◌, ◌≤◌, [], length, true, IsErr};
ghost use Rattle.link_capture.specs.Front.{head_of, head_size, front_of};
ghost use Rattle.link_capture.specs.Meaning.{State};
ghost use Rattle.link_capture.specs.Unit.{IsTaken, IsNext, after_unit};
ghost use Rattle.link_capture.specs.declared.form.Form.TheVariants as forms;
ghost use Rattle.link_capture.specs.declared.front.Front.TheVariants as fronts;

use crate::error::InputError;
use crate::event::Event;
use crate::form::Form;
use crate::front::{Front, order_of};
use crate::order::Order;
use crate::pcap::{read_header, read_record};
use crate::pcapng::{Interfaces, read_block};
use crate::raw::read_message;
use arrayvec::ArrayVec;
use std::marker::Model;

/// What is known of an input after some of its units: the form of the next one, and the interfaces of the section.
#[derive(Drop)]
pub struct Capture {
    form: Form,
    interfaces: Interfaces,
}

impl Model for Capture {
    ghost Value = { State };

    ghost view = { λ c. record { form = c.form; interfaces = c.interfaces.items } };
}

/// What is at the front of an input.
#[derive(Clone, Copy, Debug, PartialEq, Eq)]
pub enum Next<'a> {
    /// Too few bytes to say. More have to be read.
    More,
    /// The end.
    End,
    /// A unit of `size` bytes, its padding included.
    Unit { event: Event<'a>, size: usize },
    /// Bytes that are not a unit.
    Wrong(InputError),
}

impl Capture {
    /// Returns an input in this form, of which no unit is taken yet.
    pub fn new(form: Form) -> Self
        ensures { result ≡ record { form = form; interfaces = [] } }
    {
        Capture {
            form,
            interfaces: ArrayVec::new(),
        }
    }

    /// Takes the unit at the front of the input. `bytes` are the first of those that are left, and all of them if `is_last`
    /// is set. After `Next::Unit`, the next call is to get the bytes after that unit; after `Next::More`, the same bytes
    /// and more. The first error of an input does not depend on how many bytes each call gets.
    pub fn next<'a>(&mut self, bytes: &'a [u8], is_last: bool) -> Next<'a>
        ensures { IsNext self.old bytes.now is_last result self.new }
    {
        if is_last && bytes.is_empty() {
            return Next::End;
        }
        match self.form.front(bytes) {
            Front::Wrong(error) => Next::Wrong(error),
            Front::Short => self.short(bytes, is_last),
            Front::Sized { length, padding } => self.sized(bytes, is_last, length, padding),
        }
    }

    /// Returns what is at the front of an input with too few bytes for the head of a unit.
    fn short<'a>(&self, bytes: &'a [u8], is_last: bool) -> Next<'a>
        requires short { front_of self.now.form bytes.now ≡ fronts.Short }
        requires some { is_last ≡ true → bytes.now ≢ [] }
        ensures { IsNext self.now bytes.now is_last result self.now }
    {
        if !is_last {
            return Next::More;
        }
        Next::Wrong(InputError::Short {
            head: self.form.head(),
            left: bytes.len(),
        })
    }

    /// Takes a unit of `length` bytes, with `padding` after it.
    fn sized<'a>(
        &mut self,
        bytes: &'a [u8],
        is_last: bool,
        length: usize,
        padding: usize,
    ) -> Next<'a>
        requires sized { front_of self.old.form bytes.now ≡ fronts.Sized length padding }
        requires some { is_last ≡ true → bytes.now ≢ [] }
        ensures { IsNext self.old bytes.now is_last result self.new }
    {
        let left = bytes.len();
        if !is_last && left < length + padding {
            return Next::More;
        }
        if left < length {
            return Next::Wrong(InputError::Overrun {
                size: self.form.size(),
                length,
                left,
            });
        }
        match self.take(&bytes[..length]) {
            Ok(event) => Next::Unit {
                event,
                size: (length + padding).min(left),
            },
            Err(error) => Next::Wrong(error),
        }
    }

    /// Returns what a whole unit means.
    fn take<'a>(&mut self, unit: &'a [u8]) -> Result<Event<'a>, InputError>
        requires { head_size (head_of self.old.form) ≤ length unit.now }
        ensures taken { IsTaken self.old unit.now (after_unit self.new result) }
        ensures kept { IsErr result → self.new ≡ self.old }
    {
        match self.form {
            Form::Pcap { order, digits } => {
                self.form = read_header(order, digits, unit)?;
                Ok(Event::Nothing)
            }
            Form::Records { order, digits } => Ok(read_record(order, digits, unit)),
            Form::Blocks { order } => self.take_block(order, unit),
            Form::Messages => Ok(read_message(unit)),
        }
    }

    /// Returns what a whole block means.
    fn take_block<'a>(&mut self, order: Order, unit: &'a [u8]) -> Result<Event<'a>, InputError>
        requires form { self.old.form ≡ forms.Blocks order }
        requires long { 12 ≤ length unit.now }
        ensures taken { IsTaken self.old unit.now (after_unit self.new result) }
        ensures kept { IsErr result → self.new ≡ self.old }
    {
        let Some(order) = order_of(order, unit) else {
            return Err(InputError::NoMagic);
        };
        match read_block(order, &mut self.interfaces, unit) {
            Ok(event) => {
                self.form = Form::Blocks { order };
                Ok(event)
            }
            Err(error) => Err(error),
        }
    }
}
