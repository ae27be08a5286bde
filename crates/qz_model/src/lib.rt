//! The model of the trigger store: its tables as lists, what each transaction makes of them, and
//! histories, as definitions in `specs/`; and laws of them.
#![tactic(auto)]

mod laws;

pub use laws::{
    due_order_is_sorted, exclusive_executions_are_alone, legal_histories_leave_valid_tables,
};
