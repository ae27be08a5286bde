//! A store that threads share: any store under a lock row. All calls by all threads form one history of the store, and
//! what a seat's calls are answered is said of a history that begins with all that the seat had seen.
#![tactic(auto)]

mod held;
mod laws;
mod logs;
mod rows;
mod stores;
mod telling;

pub use held::Held;
pub use laws::{closed_is_short, full_only_without_room, opened_is_short, refused_as_seen};
pub use rows::{
    StoreNote, StoreRow, StoreSeat, close_row, crosses_threads, is_short, open_row, submit,
};
pub use stores::RowStore;
pub use telling::told_first;
