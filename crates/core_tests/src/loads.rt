//! Loads of drills against those that a script makes from the format alone.

use hex::encode;
use node_file::print_opening;
use sha2::{Digest, Sha256};
use std::alloc::Global;
use std::test::*;
use taos_drill::{DrillPlan, MAX_LANES, MAX_REQUESTS};

// A number, how many requests and lanes, and the sum of the load as `load.py --sum` prints it.
const LOADS: &[(u64, u32, u32, &str)] = &[
    (
        5,
        2,
        1,
        "a5483cf3d1a4338f8c3a889b5ed955ff5d829f75d40a523bc1c968d1444b9f79",
    ),
    (
        0,
        0,
        1,
        "d29fe403f7292c6f0f61e2f2e94555c843d7fff381f28dbb2b92c533edfe03ff",
    ),
    (
        18_446_744_073_709_551_615,
        33,
        5,
        "4ada4d5a45586c1c7398ddea163420a234fe77798b6cc1740f652f9b217b2bc1",
    ),
    (
        1,
        1,
        16,
        "fb6d6b4df5351adc32b4a5cab5a6cfa484719c285eadedebb957f9bf7dc40538",
    ),
    (
        4_294_967_296,
        64,
        4,
        "fdf08dfbc3a499cd733554cd1f4fa53e952e5aecfa3f2d5d90b36f38e02cc4e6",
    ),
];

// The sum of the opening's text, then each lane's bytes as a line of hex.
fn sum_of(alloc: Global, seed: u64, requests: u32, lanes: u32) -> Result<String, Fail> {
    if requests > MAX_REQUESTS || lanes < 1 || lanes > MAX_LANES {
        return Err(Fail::new("no load"));
    }
    let plan = DrillPlan::make(alloc, seed, requests, lanes)?;
    let mut text = String::new(alloc);
    print_opening(alloc, &mut text, &plan.opening)?;
    for stream in &plan.streams {
        text.push_str(encode(alloc, stream)?.as_str())?;
        text.push_str("\n")?;
    }
    Ok(encode(alloc, &Sha256::digest(text.as_bytes()))?)
}

#[test]
fn loads_have_the_sums_of_the_script(rt: HostRuntime) -> Result<(), Fail> {
    for &(seed, requests, lanes, sum) in LOADS {
        let found = sum_of(rt.alloc(), seed, requests, lanes)?;
        assert!(rt; found.as_str() == sum, "at {seed} {requests} {lanes}");
    }
    Ok(())
}
