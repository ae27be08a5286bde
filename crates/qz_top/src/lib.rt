//! The top call of the scheduler, from the bytes that come in to the bytes that go out.
#![tactic(auto)]

mod beginning;
mod checkpoints;
mod commands;
mod documents;
mod ended;
mod filling;
mod following;
mod gen_on_disk;
mod in_memory;
mod laws;
mod line_handler;
mod list_on_disk;
mod load_on_disk;
mod loading;
mod making;
mod migrating;
mod nodes;
mod on_disk;
mod open_stores;
mod opening;
mod reports;
mod run_on_disk;
mod runs;
mod scripts;
mod statuses;
mod telling;
mod times;
mod writing;

pub use checkpoints::rest_nodes;
pub use commands::command;
pub use ended::{Ended, Trail, give_back};
pub use laws::{a_checkpoint_is_due_after, calls_keep_histories, new_stores_hold_empty_lists};
pub use open_stores::open_node_stores;
pub use qz_words::WordFault;
pub use reports::report;
pub use statuses::{BadKind, Status};
pub use telling::{tell_run, tell_run_after};
