// The script: lines come in, what they command is done on a book, and words say how that went.
#![tactic(auto)]

mod counter;
mod faults;
mod listing;
mod pending;
mod printing;
mod reply;
mod session;

pub use counter::Counter;
pub use faults::Fault;
pub use pending::Pending;
pub use printing::Words;
pub use reply::{Reply, Said};
pub use session::{Session, first_bytes_decide};
