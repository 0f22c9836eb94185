//! Where bytes come from and go to: files that hold bytes under names, and sinks that take bytes.
//! Each has one implementation over the host, which tells nothing of contents, and two in memory.
#![tactic(auto)]

mod fault;
mod files;
mod held;
mod host;
mod mem;
mod sink;
mod sure;

pub use fault::{FileFault, SinkFailed};
pub use files::Files;
pub use host::{HostFiles, HostSink};
pub use mem::{MemFiles, MemSink};
pub use sink::{Sink, put_all};
pub use sure::{SureFiles, SureSink};
