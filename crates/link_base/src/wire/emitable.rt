//! Fixed-layout structs that are not attributes, and how they are written.

ghost use Rattle.std.specs.Prelude.{◌≡◌, ◌≤◌, ℕ, List, length};
ghost use Rattle.link_base.specs.Held.{IsOctets};
ghost use Rattle.link_base.specs.Answers.{OverwritesFront};

/// A fixed-layout struct that can be written. It has no header and no padding.
pub trait Emitable {
    /// The bytes of a value, in the order in which they are written.
    ghost octets: { Self → List ℕ };

    /// The number of bytes of every value.
    ghost size: { ℕ };

    /// Returns the length of the written struct in bytes.
    fn buffer_len(&self) -> usize
        ensures { result ≡ length (Self.octets self.now) };

    /// Writes the struct to the start of `buffer`; the rest is unchanged. `buffer` must be at least `buffer_len()`
    /// bytes long.
    fn emit(&self, buffer: &mut [u8])
        requires { length (Self.octets self.now) ≤ length buffer.old }
        ensures written { OverwritesFront buffer.old buffer.new (Self.octets self.now) }
        ensures octets { IsOctets Self.size (Self.octets self.now) };
}
