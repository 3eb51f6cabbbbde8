//! Tests of formats: bytes, tags and digests from outside, what is printed, and what no clause tells. A crate with
//! tests is proved twice, so they stand here.
#![tactic(auto)]

#[cfg(test)]
mod asks;
#[cfg(test)]
mod frames;
#[cfg(test)]
mod gate;
#[cfg(test)]
mod kept_once;
#[cfg(test)]
mod loads;
#[cfg(test)]
mod opened;
#[cfg(test)]
mod presented;
#[cfg(test)]
mod printed;
#[cfg(test)]
mod remembering;
#[cfg(test)]
mod tags;
#[cfg(test)]
mod vectors;
