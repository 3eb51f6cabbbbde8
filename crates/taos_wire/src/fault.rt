//! Why bytes are no message.

pub use byte_fields::FormatFault as WireFault;
