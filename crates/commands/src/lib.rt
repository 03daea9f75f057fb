//! What a command asks: the names of its files, its settings, and its task.
#![tactic(auto)]

mod command;

pub use command::{Asked, AuditBy, FileNames, Kind, Task, Which};
