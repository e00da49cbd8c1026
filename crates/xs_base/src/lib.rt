//! The outside: files, an input read by lines, and sinks, each with a count of its faults.
#![tactic(auto)]

mod disk;
mod extent;
mod fails;
mod file_table;
mod files;
mod lines;
mod mem_files;
mod mem_lines;
mod mem_sink;
mod packed;
mod real_files;
mod real_lines;
mod real_sink;
mod sink;

pub use disk::Disk;
pub use fails::{Fail, Fails};
pub use files::{FileBytes, FileFault, Files};
pub use lines::{LineBuffer, Lines, ReadFault};
pub use mem_files::MemFiles;
pub use mem_lines::MemLines;
pub use mem_sink::MemSink;
pub use real_files::RealFiles;
pub use real_lines::RealLines;
pub use real_sink::RealSink;
pub use sink::{Sink, WriteFault};

#[cfg(test)]
mod tests;
