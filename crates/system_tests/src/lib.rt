//! Tests of what stands between the program and the system. A crate with tests is proved twice, so
//! they stand here.
#![tactic(auto)]

#[cfg(test)]
mod clocks;
#[cfg(test)]
mod counts;
#[cfg(test)]
mod doors;
#[cfg(test)]
mod hub_play;
#[cfg(test)]
mod leaving;
#[cfg(test)]
mod notices;
#[cfg(test)]
mod relays;
#[cfg(test)]
mod streams;
#[cfg(test)]
mod switches;
#[cfg(test)]
mod told;
#[cfg(test)]
mod wallets;
