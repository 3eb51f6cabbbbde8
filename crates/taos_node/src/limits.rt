//! Limits of which two crates below have a const, each of the type that it counts in, held equal.

use agent_core::{MAX_CHANNELS, MAX_COMMONS, MAX_JOURNAL, MAX_PRESENTED, MAX_SHARDS};
use node_file::{
    MAX_CHANNELS as FILE_CHANNELS, MAX_COMMONS as FILE_COMMONS, MAX_LIMIT,
    MAX_SHARDS as FILE_SHARDS,
};
use taos_calculus::MAX_CERTS;
use taos_drill::MAX_LANES as DRILL_LANES;
use taos_lanes::MAX_LANES;
use taos_wire::{MAX_CERTS as REQUEST_CERTS, MAX_CITED};

const _: () = prove!(REQUEST_CERTS as usize == MAX_PRESENTED);

const _: () = prove!(MAX_CITED as usize == MAX_CERTS);

const _: () = prove!(FILE_COMMONS as usize == MAX_COMMONS);

const _: () = prove!(FILE_CHANNELS as usize == MAX_CHANNELS);

const _: () = prove!(FILE_SHARDS as usize == MAX_SHARDS);

const _: () = prove!(MAX_LIMIT == MAX_JOURNAL);

const _: () = prove!(DRILL_LANES as usize == MAX_LANES);
