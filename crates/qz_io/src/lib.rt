//! Where bytes come from and go to, and what tells the time: sources, sinks and clocks, objects in memory that
//! tell what they hold, and the real ones. On top of them whole writes and lines.
#![tactic(auto)]

mod clocks;
mod faulty;
mod handlers;
mod limits;
mod logs;
mod memory;
mod pieces;
mod readers;
mod system;
mod traits;

pub use clocks::ListClock;
pub use faulty::{FaultSink, FaultSource};
pub use handlers::{LineHandler, LinesEnd, handle_lines};
pub use limits::{LINE_COUNT_LIMIT, LINE_LIMIT, limits_are};
pub use memory::{MemSink, MemSource};
pub use pieces::write_all;
pub use qz_civil::Failed;
pub use readers::{Found, LineReader, block_of_lines_is};
pub use system::{RealClock, StdSink, StdSource};
pub use traits::{Clock, Sink, Source};
