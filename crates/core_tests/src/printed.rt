//! What is printed: each fault, and no key.

use credential_kit::Signer;
use keyed_seal::{KeyFault, KeyTable};
use node_file::{FileCause, FileFault, read_opening};
use prin_term::TermFault;
use sealed_cert::SealFault;
use std::alloc::Global;
use std::fmt::{Debug, Display};
use std::test::Fail;
use stmt_codec::{BodyFault, CertFault};
use taos_wire::WireFault;

// Whether each is printed as the text beside it.
fn are_printed<T: Display>(alloc: Global, rows: &[(T, &str)]) -> Result<bool, Fail> {
    for (it, text) in rows {
        if format!(in alloc; "{it}")?.as_str() != *text {
            return Ok(false);
        }
    }
    Ok(true)
}

const KEYS: &[(KeyFault, &str)] = &[
    (KeyFault::Twice { number: 7 }, "key 7 is there already"),
    (
        KeyFault::TableFull { room: 2 },
        "the table has room for 2 keys",
    ),
];

const SEALS: &[(SealFault, &str)] = &[
    (
        SealFault::Malformed { offset: 65 },
        "the sealed certificate is malformed at 65",
    ),
    (
        SealFault::UnknownIssuer { issuer: 9 },
        "there is no key of issuer 9",
    ),
    (
        SealFault::WrongKind { kind: 2 },
        "the certificate is of kind 2",
    ),
];

const TERMS: &[(TermFault, &str)] = &[
    (
        TermFault::Tag { offset: 1 },
        "no term begins with the byte at 1",
    ),
    (
        TermFault::Short { offset: 2 },
        "the input ends inside a term, at 2",
    ),
    (
        TermFault::TooDeep { offset: 3 },
        "the term is too deep at 3",
    ),
    (
        TermFault::TooLarge { offset: 4 },
        "the term has too many nodes at 4",
    ),
    (TermFault::NoMemory, "out of memory"),
];

const WIRES: &[(WireFault, &str)] = &[
    (WireFault::Malformed { offset: 20 }, "byte 20: malformed"),
    (WireFault::NoMemory, "out of memory"),
];

const FILES: &[(FileFault, &str)] = &[
    (FileFault::Byte { offset: 38 }, "byte 38: malformed"),
    (FileFault::NoMemory, "no memory"),
    (
        FileFault::Line {
            line: 7,
            cause: FileCause::UnknownObject,
        },
        "line 7: unknown object",
    ),
];

const BODIES: &[(BodyFault, &str)] = &[(BodyFault::Malformed { offset: 31 }, "byte 31: malformed")];

const CERTS: &[(CertFault, &str)] = &[(
    CertFault::TooLarge,
    "the certificate's terms are too large",
)];

#[test]
fn faults_print_what_they_name(rt: HostRuntime) -> Result<(), Fail> {
    let alloc = rt.alloc();
    assert!(rt; are_printed(alloc, KEYS)?, "of keys");
    assert!(rt; are_printed(alloc, SEALS)?, "of seals");
    assert!(rt; are_printed(alloc, TERMS)?, "of terms");
    assert!(rt; are_printed(alloc, WIRES)?, "of requests");
    assert!(rt; are_printed(alloc, FILES)?, "of files");
    assert!(rt; are_printed(alloc, BODIES)?, "of bodies");
    assert!(rt; are_printed(alloc, CERTS)?, "of certificates");
    Ok(())
}

// Whether it is shown so.
fn is_shown<T: Debug>(alloc: Global, it: &T, text: &str) -> Result<bool, Fail> {
    Ok(format!(in alloc; "{it:?}")?.as_str() == text)
}

// Node 7, a key of 32 bytes 7, one shard, keep 3600, journal limit 16384, and four empty lists.
const SMALL: [u8; 64] = [
    0, 1, 0, 0, 0, 7, 7, 7, 7, 7, 7, 7, 7, 7, 7, 7, 7, 7, 7, 7, 7, 7, 7, 7, 7, 7, 7, 7, 7, 7, 7, 7,
    7, 7, 7, 7, 7, 7, 0, 0, 0, 1, 0, 0, 0, 0, 0, 0, 0x0e, 0x10, 0, 0, 0, 0, 0, 0, 0x40, 0, 0, 0, 0,
    0, 0, 0,
];

#[test]
fn what_has_keys_shows_none(rt: HostRuntime) -> Result<(), Fail> {
    let alloc = rt.alloc();
    let mut table = KeyTable::new(alloc, 2)?;
    table.add(7, [7; 32])?;
    assert!(rt; is_shown(alloc, &table, "KeyTable { count: 1, room: 2, .. }")?);
    assert!(rt; is_shown(alloc, &table.sealer(7), "Some(Sealer { .. })")?);
    let signer = Signer {
        issuer: 7,
        key: [7; 32],
    };
    assert!(rt; is_shown(alloc, &signer, "Signer { issuer: 7, .. }")?);
    let opening = read_opening(alloc, &SMALL)?;
    assert!(rt; is_shown(alloc, &opening, "Opening { node: 7, shards: 1, .. }")?);
    Ok(())
}
