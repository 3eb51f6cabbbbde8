//! The faults of journals as bytes.

/// Why bytes are no spelling of journals.
pub use byte_fields::FormatFault as JournalFault;
