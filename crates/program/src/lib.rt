//! What the programs `nlroute` and `nlshow` share: how they get their arguments, how they print a last line and end, and
//! how they report a failed write. `nlshow` also reads its inputs by an [`UntilEnd`].
#![tactic(auto)]

mod arguments;
mod printing;
mod until_end;
mod watched;

pub use arguments::collect_arguments;
pub use printing::{
    end_failed, finish, print, print_no_memory, print_read_fault, print_text, print_write_fault,
    unbuffered,
};
pub use until_end::UntilEnd;
pub use watched::Watched;
