//! Files and output, as traits whose every refusal has a cause, and what implements them.
#![tactic(auto)]

mod console;
mod disk;
mod drafts;
mod errors;
mod fault_count;
mod memory;
mod memory_calls;
mod memory_sink;
mod noted;
mod parts;
mod reader;
mod sure;
mod table;
mod traits;
mod writer;

pub use console::ConsoleSink;
pub use disk::DiskStore;
pub use errors::{ReadAllError, SinkError, StoreError};
pub use memory::MemStore;
pub use memory_sink::MemSink;
pub use noted::{Noted, NotedFiles};
pub use reader::read_all;
pub use sure::{SureSink, SureStore};
pub use traits::{Sink, Store};
pub use writer::{append_all, print, write_all_to};
