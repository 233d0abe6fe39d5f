//! Where bytes come from and go to: traits for a source, a sink and a shelf of named files, the same in memory,
//! and adapters over the readers and writers of std.
//!
//! It stands apart so that the code above reads and writes through three traits alone and is proved against what
//! they tell; the real streams enter by `Reading` and `Writing`, the trusted edge, in `main` and nowhere else.
//! A call of a source, a sink or a shelf either does what it says or leaves what is told as it was.
//!
//! # What a contract sees
//!
//! A source tells the bytes that it has `left`, a sink what was `written`, a shelf its `files`, each where it can,
//! and each keeps a count of `faults`. `Failed` is answered only where that count rose in the call, or stands at
//! the last value of a 64-bit counter (`Causes`). Bytes that are told are spoken of in the words of std's
//! `Io.KnownBytes`, files in those of `Files`: a file is its bytes, found by the bytes of its name. `SureSource`
//! and `SureSink` are seen as lists of bytes, `SureShelf` as a list of pairs (`Shelves`), `MemSource` and
//! `MemSink` as the records of `Sources` and `Sinks`, which say call by call what happens. `Reading` and `Writing`
//! are seen as what they adapt with the count of its failures (`Adapters`), and tell no content of their own.
#![tactic(auto)]

mod mem_sink;
mod mem_source;
mod pieces;
mod reading;
mod shelf;
mod sink;
mod source;
mod stop;
mod sure_shelf;
mod sure_sink;
mod sure_source;
#[cfg(test)]
mod tests;
mod writing;

pub use mem_sink::MemSink;
pub use mem_source::MemSource;
pub use reading::Reading;
pub use shelf::Shelf;
pub use sink::Sink;
pub use source::Source;
pub use stop::{Failed, LoadStop, Stop};
pub use sure_shelf::SureShelf;
pub use sure_sink::SureSink;
pub use sure_source::SureSource;
pub use writing::Writing;
