// Records: what an input of bytes holds, one record after another, each handed out as a part of the input itself.
#![tactic(auto)]

mod kind;
mod reader;
mod record;

pub use kind::Kind;
pub use reader::{Reader, Unread};
pub use record::Record;
