//! That bytes which were opened before give the very same certificate again.

use crate::vectors::{FROM_ISSUER, FROM_RELAY};
use keyed_seal::{KeyTable, Sealer};
use relay_core::*;
use std::alloc::Global;
use std::sync::Arc;
use std::test::*;

// The one key of a number: 32 bytes of this value.
fn one_key(alloc: Global, number: u32, value: u8) -> Result<KeyTable, Fail> {
    let mut table = KeyTable::new(alloc, 1)?;
    table.add(number, [value; 32])?;
    Ok(table)
}

// A relay that knows the issuer 1 and the node 7, and fails at its second call.
fn relay_of(alloc: Global) -> Result<MemRelay, Fail> {
    let table = RelayTable {
        issuers: one_key(alloc, 1, 1)?,
        nodes: one_key(alloc, 7, 7)?,
    };
    Ok(MemRelay {
        relay: LocalRelay { alloc, table },
        fails: vec![in alloc; 1]?,
        calls: 0,
        faults: 0,
    })
}

#[test]
fn bytes_that_were_opened_give_the_same_certificate(rt: HostRuntime) -> Result<(), Fail> {
    let alloc = rt.alloc();
    let mut relay = relay_of(alloc)?;
    let mut opened = OpenedCerts::new(alloc, &Sealer::of(&[7; 32]));
    let given = present_with(alloc, 7, &mut opened, &mut relay, &FROM_ISSUER);
    let given = given.ok().ok_or("the relay gave none")?;
    for _ in 0..2 {
        let again = present_with(alloc, 7, &mut opened, &mut relay, &FROM_RELAY);
        let again = again.ok().ok_or("it does not open")?;
        // These two, and the one that is kept.
        assert!(rt; Arc::strong_count(&again) == 3);
    }
    assert!(rt; Arc::strong_count(&given) == 2);

    // One under its issuer's own seal goes to the relay again, whose second call fails.
    let third = present_with(alloc, 7, &mut opened, &mut relay, &FROM_ISSUER);
    assert!(rt; third.err() == Some(Unpresented::LinkFailed));

    // Another tag is another certificate.
    let mut turned = FROM_RELAY;
    turned[64] = 102;
    let wrong = present_with(alloc, 7, &mut opened, &mut relay, &turned);
    assert!(rt; wrong.err() == Some(Unpresented::Refused { code: BAD_SEAL }));
    Ok(())
}
