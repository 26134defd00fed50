//! What takes the marks of a stack of decoders and writes their notes in the order of a listing,
//! each as soon as it may be given, while one that looks on is shown these notes.
#![tactic(auto)]

mod laws;
mod lines;
mod lister;
mod pushing;
mod stop;
mod take;
mod watch;

pub use laws::lister_is_send;
pub use lister::Lister;
pub use stop::ListStop;
pub use watch::{Unwatched, Watch};
