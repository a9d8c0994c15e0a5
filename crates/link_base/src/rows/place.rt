//! Destinations for parsed values.

ghost use Rattle.std.specs.Prelude.{◌≡◌, ◌+◌, ◌<◌, ◌++◌, ◌∷◌, [], None, Some, vec_len, vec_capacity};
ghost use Rattle.link_base.specs.Storing.{Hands};

use crate::wire::fault::DecodeError;

/// The destination of a parsed value: a `Vec` with spare capacity, or an `Option` that is `None`. Functions that parse
/// attributes of many types store each value there as soon as they have it.
pub trait Place<T> {
    /// Holds if the destination can store a value.
    ghost is_free: { Self → Type 0 };

    /// Relates the destination before, the value, and the destination after storing it.
    ghost takes: { Self → T → Self → Type 0 };

    /// Stores a value. The destination must be free (see `is_free`).
    fn put(&mut self, value: T)
        requires { is_free self.old }
        ensures { takes self.old value self.new };
}

impl<T> Place<T> for Vec<T> {
    ghost is_free = { λ list. vec_len list < vec_capacity list };

    ghost takes = { λ list value longer. (longer.items ≡ list.items ++ value ∷ [])
        × (vec_len longer ≡ vec_len list + 1) × (vec_capacity longer ≡ vec_capacity list) };

    #[inline(always)]
    fn put(&mut self, value: T)
        requires { vec_len self.old < vec_capacity self.old }
        ensures { (self.new.items ≡ self.old.items ++ value ∷ [])
            × (vec_len self.new ≡ vec_len self.old + 1) × (vec_capacity self.new ≡ vec_capacity self.old) }
    {
        self.push_reserved(value);
    }
}

impl<T: Drop> Place<T> for Option<T> {
    ghost is_free = { λ place. place ≡ None };

    ghost takes = { λ _ value place. place ≡ Some value };

    #[inline(always)]
    fn put(&mut self, value: T)
        requires { self.old ≡ None }
        ensures { self.new ≡ Some value }
    {
        *self = Some(value);
    }
}

/// Stores a parsed value in `place`, which must be free.
///
/// # Errors
///
/// The error in `read`, unchanged. `place` is unchanged too.
#[inline(always)]
pub fn keep<T: Drop, P: Place<T>>(
    place: &mut P,
    read: Result<T, DecodeError>,
) -> Result<(), DecodeError>
    requires { P.is_free place.old }
    ensures { Hands (λ value. P.takes place.old value place.new) (place.new ≡ place.old) read result }
{
    match read {
        Ok(value) => {
            place.put(value);
            Ok(())
        }
        Err(error) => Err(error),
    }
}
