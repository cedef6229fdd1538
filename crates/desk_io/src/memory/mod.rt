//! A desk in memory, and its parts.
mod buffer;
mod failing;
mod file;
mod mem_desk;
mod reader;
mod readers;

pub use failing::Call;
pub use mem_desk::MemDesk;
