//! Where bytes come from and go to.
//!
//! A source and a sink tell which bytes are left or held, where they can, and always how often they
//! failed. A call answers a fault only where that count rose in it, so whoever reads or writes
//! through them can say of each answer when it comes, whatever the outside does.
#![tactic(auto)]

mod calls;
mod device;
mod mem_sink;
mod mem_source;
mod no_memory;
mod real;
mod whole;

pub use device::{Failed, Sink, Source};
pub use mem_sink::MemSink;
pub use mem_source::MemSource;
pub use no_memory::NoMemory;
pub use real::{RealSink, RealSource};
pub use whole::{ReadFail, WriteFault, read_all, write_all_of};
