//! A caller's wallet.

/// The certificates that a caller gives, each for one of its channels, in the file's order.
#[derive(Drop)]
pub struct Wallet {
    pub lines: Vec<WalletLine>,
}

/// A certificate of a channel, as bytes that are not opened.
#[derive(Drop)]
pub struct WalletLine {
    pub channel: u32,
    pub cert: Vec<u8>,
}
