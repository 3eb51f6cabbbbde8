//! Why bytes are no proof.

pub use byte_fields::FormatFault as ProofFault;
