//! The command-line arguments.

use std::alloc::AllocError;
use std::rt::Env;
use std::{env, io};

/// Returns the program's name and its arguments, or `None` if they are not UTF-8.
///
/// # Errors
///
/// `AllocError` if an allocation fails.
pub fn collect_arguments<R: Env + AllocGlobal>(rt: &R) -> Result<Option<Vec<String>>, AllocError> {
    match env::args(rt) {
        Ok(arguments) => {
            let mut words = Vec::with_capacity(rt.alloc(), arguments.len())?;
            words.extend(arguments)?;
            Ok(Some(words))
        }
        Err(error) if error.kind() == io::ErrorKind::OutOfMemory => Err(AllocError),
        Err(_) => Ok(None),
    }
}
