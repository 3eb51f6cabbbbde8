//! Bytes from outside: tags by Python's `hmac`, digests by its `hashlib`.

use arrayvec::ArrayVec;
use cred_pull::write_pull_failed;
use credential_kit::*;
use sealed_cert::{seal_issued, seal_relayed};
use std::alloc::Global;
use std::test::*;
use stmt_codec::read_body;
use taos_wire::{read_reply, read_request, write_reply, write_request};

const ONES: [u8; 32] = [1; 32];

const TWOS: [u8; 32] = [2; 32];

// Key 1 says that key 2 speaks for name 10, until 2000, with serial 1; and its digest.
const HAND_OFF: [u8; 32] = [
    1, 0, 0, 0, 1, 0, 1, 0, 0, 0, 2, 2, 0, 0, 0, 10, 0, 0, 0, 0, 0, 0, 7, 208, 0, 0, 0, 0, 0, 0, 0,
    1,
];

const DIGEST: [u8; 32] = [
    241, 8, 158, 92, 49, 13, 241, 53, 120, 169, 226, 50, 230, 141, 66, 181, 239, 183, 33, 93, 9,
    90, 136, 247, 177, 42, 244, 78, 21, 235, 9, 156,
];

// The hand-off from 1500 on: a body of version 2; and its digest.
const LATER: [u8; 40] = [
    2, 0, 0, 0, 1, 0, 1, 0, 0, 0, 2, 2, 0, 0, 0, 10, 0, 0, 0, 0, 0, 0, 5, 220, 0, 0, 0, 0, 0, 0, 7,
    208, 0, 0, 0, 0, 0, 0, 0, 1,
];

const LATER_DIGEST: [u8; 32] = [
    234, 51, 195, 185, 214, 16, 19, 20, 7, 236, 140, 161, 132, 136, 226, 59, 48, 158, 50, 63, 154,
    83, 201, 179, 17, 187, 220, 154, 106, 148, 35, 179,
];

fn digest_of(alloc: Global, bytes: &[u8]) -> Result<[u8; 32], Fail> {
    let (cert, _) = read_body(alloc, bytes, 0)?;
    Ok(cert.digest)
}

#[test]
fn a_certificate_has_the_digest_of_its_body(rt: HostRuntime) -> Result<(), Fail> {
    assert!(rt; digest_of(rt.alloc(), &HAND_OFF)? == DIGEST);
    assert!(rt; digest_of(rt.alloc(), &LATER)? == LATER_DIGEST);
    Ok(())
}

// The hand-off as kind 1 under 32 bytes of value 1.
pub(crate) const FROM_ISSUER: [u8; 65] = [
    1, 1, 0, 0, 0, 1, 0, 1, 0, 0, 0, 2, 2, 0, 0, 0, 10, 0, 0, 0, 0, 0, 0, 7, 208, 0, 0, 0, 0, 0, 0,
    0, 1, 229, 211, 80, 58, 138, 140, 152, 71, 105, 215, 86, 194, 192, 152, 12, 52, 153, 188, 151,
    204, 149, 154, 30, 239, 55, 109, 98, 134, 183, 46, 95, 56,
];

// And as kind 2 under 32 bytes of value 7.
pub(crate) const FROM_RELAY: [u8; 65] = [
    2, 1, 0, 0, 0, 1, 0, 1, 0, 0, 0, 2, 2, 0, 0, 0, 10, 0, 0, 0, 0, 0, 0, 7, 208, 0, 0, 0, 0, 0, 0,
    0, 1, 34, 245, 18, 205, 143, 39, 50, 124, 30, 14, 52, 137, 25, 233, 81, 228, 6, 255, 23, 137,
    130, 154, 223, 247, 105, 8, 238, 180, 28, 228, 248, 103,
];

#[test]
fn a_body_is_sealed_by_its_issuer_and_by_a_relay(rt: HostRuntime) -> Result<(), Fail> {
    let (cert, _) = read_body(rt.alloc(), &HAND_OFF, 0)?;
    let mut out = Vec::new(rt.alloc());
    seal_issued(&mut out, &ONES, &cert.body)?;
    assert!(rt; out.as_slice() == FROM_ISSUER.as_slice());
    let mut out = Vec::new(rt.alloc());
    seal_relayed(&mut out, &[7; 32], &cert.body)?;
    assert!(rt; out.as_slice() == FROM_RELAY.as_slice());
    Ok(())
}

// The certificates of a login by bob (name 30, key 13) on the machine ws1 (name 20, key 11), whose
// node has the key 12, the session the key 14 and the channel the key 15; a role of bob's, and the
// delegation to the machine with the name 21. Each key is 32 bytes of its own number. The tags are
// by Python's hmac.
const BOOT: [u8; 70] = [
    1, 1, 0, 0, 0, 11, 0, 1, 0, 0, 0, 12, 5, 2, 0, 0, 0, 20, 0, 0, 0, 1, 0, 0, 0, 0, 0, 0, 19, 136,
    0, 0, 0, 0, 0, 0, 0, 1, 154, 155, 49, 239, 239, 119, 99, 16, 150, 218, 75, 248, 148, 12, 174,
    250, 60, 137, 251, 25, 162, 216, 243, 207, 226, 249, 250, 158, 3, 228, 132, 130,
];

const CHANNEL: [u8; 65] = [
    1, 1, 0, 0, 0, 12, 0, 1, 0, 0, 0, 15, 1, 0, 0, 0, 12, 0, 0, 0, 0, 0, 0, 19, 136, 0, 0, 0, 0, 0,
    0, 0, 2, 125, 171, 20, 47, 44, 43, 46, 108, 182, 86, 251, 53, 52, 208, 100, 108, 3, 108, 216,
    222, 249, 51, 82, 187, 155, 235, 47, 41, 51, 156, 4, 148,
];

const LOGIN: [u8; 99] = [
    1, 1, 0, 0, 0, 13, 0, 4, 3, 5, 2, 0, 0, 0, 20, 0, 0, 0, 1, 1, 0, 0, 0, 14, 2, 0, 0, 0, 30, 6,
    3, 5, 2, 0, 0, 0, 20, 0, 0, 0, 1, 1, 0, 0, 0, 14, 2, 0, 0, 0, 30, 0, 0, 0, 0, 0, 0, 19, 136, 0,
    0, 0, 0, 0, 0, 0, 3, 210, 171, 134, 181, 33, 77, 189, 240, 123, 14, 133, 139, 11, 40, 149, 28,
    179, 26, 162, 63, 230, 240, 174, 205, 59, 88, 201, 197, 167, 76, 230, 157,
];

const SESSION: [u8; 65] = [
    1, 1, 0, 0, 0, 14, 0, 1, 0, 0, 0, 15, 1, 0, 0, 0, 14, 0, 0, 0, 0, 0, 0, 19, 136, 0, 0, 0, 0, 0,
    0, 0, 4, 203, 119, 45, 102, 247, 72, 81, 238, 255, 47, 31, 196, 148, 211, 212, 38, 120, 10, 0,
    206, 231, 172, 105, 228, 189, 79, 87, 116, 47, 216, 161, 234,
];

const ROLE: [u8; 70] = [
    1, 1, 0, 0, 0, 3, 0, 1, 0, 0, 0, 4, 5, 2, 0, 0, 0, 30, 0, 0, 0, 2, 0, 0, 0, 0, 0, 0, 19, 136,
    0, 0, 0, 0, 0, 0, 0, 5, 41, 195, 159, 89, 160, 166, 1, 20, 9, 99, 63, 112, 135, 128, 98, 160,
    20, 103, 221, 79, 90, 106, 207, 13, 139, 42, 141, 224, 219, 213, 82, 101,
];

const DELEGATE: [u8; 114] = [
    1, 1, 0, 0, 0, 15, 1, 2, 0, 0, 0, 30, 4, 5, 2, 0, 0, 0, 21, 0, 0, 0, 1, 6, 5, 2, 0, 0, 0, 20,
    0, 0, 0, 1, 2, 0, 0, 0, 30, 6, 5, 2, 0, 0, 0, 21, 0, 0, 0, 1, 6, 5, 2, 0, 0, 0, 20, 0, 0, 0, 1,
    2, 0, 0, 0, 30, 0, 0, 0, 0, 0, 0, 19, 136, 0, 0, 0, 0, 0, 0, 0, 6, 70, 122, 79, 250, 127, 158,
    90, 169, 133, 228, 71, 50, 175, 123, 84, 154, 61, 125, 110, 115, 97, 241, 31, 83, 61, 47, 72,
    66, 53, 37, 227, 172,
];

fn signer(number: u8) -> Signer {
    Signer {
        issuer: number as u32,
        key: [number; 32],
    }
}

#[derive(Clone, Copy)]
enum Form {
    Boot,
    Channel,
    Login,
    Session,
    Role,
    Delegate,
}

const FORMS: &[(u64, Form, &[u8])] = &[
    (1, Form::Boot, &BOOT),
    (2, Form::Channel, &CHANNEL),
    (3, Form::Login, &LOGIN),
    (4, Form::Session, &SESSION),
    (5, Form::Role, &ROLE),
    (6, Form::Delegate, &DELEGATE),
];

// What a call gives, with a serial number.
fn made(alloc: Global, form: Form, serial: u64) -> Result<Vec<u8>, Fail> {
    let bytes = match form {
        Form::Boot => boot(alloc, &signer(11), 12, 20, 1, 5000, serial)?,
        Form::Channel => channel(alloc, &signer(12), 15, 5000, serial)?,
        Form::Login => login(alloc, &signer(13), 20, 1, 14, 30, 5000, serial)?,
        Form::Session => session(alloc, &signer(14), 15, 5000, serial)?,
        Form::Role => role(alloc, &signer(3), 4, 30, 2, 5000, serial)?,
        Form::Delegate => delegate(alloc, &signer(15), 30, 20, 1, 21, 1, 5000, serial)?,
    };
    Ok(bytes)
}

#[test]
fn each_call_gives_its_form_under_the_signers_seal(rt: HostRuntime) -> Result<(), Fail> {
    for &(serial, form, bytes) in FORMS {
        let made = made(rt.alloc(), form, serial)?;
        assert!(rt; made.as_slice() == bytes, "of {serial}");
    }
    Ok(())
}

// Channel 1 reads object 5, as its first request, under ONES.
const ASKED: [u8; 52] = [
    3, 0, 0, 0, 1, 0, 0, 0, 0, 0, 0, 0, 1, 0, 1, 0, 0, 0, 5, 0, 0x4a, 0xfc, 0x9e, 0xb7, 0x32, 0xaf,
    0x74, 0x44, 0x0e, 0xce, 0x46, 0x18, 0x5f, 0x2c, 0x6e, 0x4c, 0x4b, 0x50, 0x05, 0x63, 0x7c, 0x8b,
    0x8e, 0x7f, 0x57, 0x85, 0x1c, 0xdf, 0x32, 0xe5, 0x20, 0xd5,
];

#[test]
fn a_request_is_read_and_written(rt: HostRuntime) -> Result<(), Fail> {
    let request = read_request(rt.alloc(), &ASKED)?;
    let mut out = Vec::new(rt.alloc());
    write_request(&mut out, &ONES, &request)?;
    assert!(rt; out.as_slice() == ASKED.as_slice());
    Ok(())
}

// Channel 1 reads `hello` by an anchor of its key.
const ANCHORED: [u8; 95] = [
    4, 0, 0, 0, 1, 0, 0, 0, 0, 0, 0, 0, 1, 0, 0, 0, 0, 0, 0, 0, 0, 0, 0, 0, 0, 0, 0, 0, 0, 0, 0,
    23, 0, 2, 1, 0, 0, 0, 1, 2, 0, 0, 0, 10, 0, 0, 0, 1, 9, 0, 0, 0, 1, 0, 0, 0, 0, 5, 0x68, 0x65,
    0x6c, 0x6c, 0x6f, 0x90, 0x58, 0xa1, 0xdc, 0x9e, 0xad, 0xc4, 26, 0xe1, 0x29, 0xb8, 0x23, 0x95,
    0x52, 9, 22, 0xc6, 0x56, 0x3d, 0x31, 0x62, 28, 0x79, 0xd2, 12, 0xf4, 0xfb, 0xe1, 14, 0x23,
    0xab, 0x90,
];

// Channel 2 reads it by a certificate of key 1.
const HANDED: [u8; 167] = [
    4, 0, 0, 0, 2, 0, 0, 0, 0, 0, 0, 0, 1, 0, 0, 0, 0, 0, 0, 0, 0, 0, 0, 0, 0, 0, 0, 0, 0, 0, 0,
    0x3d, 0, 3, 1, 0, 0, 0, 1, 2, 0, 0, 0, 10, 1, 0, 0, 0, 2, 0, 0, 0, 4, 9, 0, 0, 0, 1, 0, 0, 10,
    0, 0, 0, 2, 0, 1, 0, 0, 11, 0, 1, 0, 2, 0, 1, 0, 0, 0, 1, 0, 0, 0, 0, 13, 0, 2, 0, 1, 0, 0, 0,
    2, 1, 0, 0x20, 1, 0, 0, 0, 1, 0, 1, 0, 0, 0, 2, 2, 0, 0, 0, 10, 0, 0, 0, 0, 0, 0, 7, 0xd0, 0,
    0, 0, 0, 0, 0, 0, 1, 0, 5, 0x68, 0x65, 0x6c, 0x6c, 0x6f, 0x49, 0x31, 0xa0, 0xac, 0x87, 0xa6,
    0xd1, 6, 0x81, 0xfc, 0x4f, 0x59, 0x88, 0xfe, 0x2e, 0x4f, 3, 0x7b, 0x98, 0xd3, 0x50, 0x48, 0x4e,
    0xca, 0xcb, 0x45, 0x46, 0xf0, 0x34, 0x92, 0xb3, 0x43,
];

// Nobody has the right.
const NO_ENTRY: [u8; 59] = [
    4, 0, 0, 0, 1, 0, 0, 0, 0, 0, 0, 0, 1, 1, 0, 0, 0, 0, 0, 0, 0, 0, 0, 0, 0, 0, 3, 26, 0xd7,
    0x38, 0x97, 0xa7, 0xab, 0x60, 4, 0xdc, 0xfd, 0x21, 0x71, 0xe3, 0xa1, 0xd5, 0xfc, 0x91, 0x53,
    0xfe, 0xee, 0xf1, 0xb5, 0xfa, 9, 0, 12, 0x23, 0x56, 0xbb, 0x99, 0x5d, 0x27,
];

// Nobody who speaks reaches name 10.
const UNREACHED: [u8; 65] = [
    4, 0, 0, 0, 2, 0, 0, 0, 0, 0, 0, 0, 1, 1, 0, 0, 0, 0, 0, 0, 0, 0, 0, 0, 0, 0, 2, 0, 2, 0, 0, 0,
    10, 0xca, 0x9e, 0xc7, 0x29, 0xe1, 0xa3, 2, 0x50, 24, 0x93, 0x40, 0x76, 0x64, 0xfd, 0xe3, 0xb1,
    0x63, 0x4e, 0x8b, 0x6a, 0x66, 0xd9, 0xab, 0x24, 0x64, 0xb4, 0x3a, 0xfc, 0x2b, 0x58, 0x43, 0x65,
];

// The request has a byte too many; nothing seals it.
const UNREAD: [u8; 50] = [
    4, 0, 0, 0, 0, 0, 0, 0, 0, 0, 0, 0, 0, 2, 0, 0, 0, 0x34, 0, 0, 0, 0, 0, 0, 0, 0, 0, 0, 0, 0, 0,
    0, 0, 0, 0, 0, 0, 0, 0, 0, 0, 0, 0, 0, 0, 0, 0, 0, 0, 0,
];

// A key, where there is one, and the reply under it.
const WORKED: &[(Option<&[u8; 32]>, &[u8])] = &[
    (Some(&ONES), &ANCHORED),
    (Some(&TWOS), &HANDED),
    (Some(&ONES), &NO_ENTRY),
    (Some(&TWOS), &UNREACHED),
    (None, &UNREAD),
];

// Whether what is read is written back, under the key where there is one.
fn comes_back(alloc: Global, key: Option<&[u8; 32]>, bytes: &[u8]) -> Result<bool, Fail> {
    let (channel, seq, reply) = read_reply(alloc, bytes)?;
    let mut out = Vec::new(alloc);
    write_reply(&mut out, key, channel, seq, &reply)?;
    Ok(out.as_slice() == bytes)
}

#[test]
fn worked_replies_are_read_and_written(rt: HostRuntime) -> Result<(), Fail> {
    for &(key, bytes) in WORKED {
        assert!(rt; comes_back(rt.alloc(), key, bytes)?, "{bytes:?}");
    }
    Ok(())
}

// The reply that the fetch failed for number 1 of channel 2, under 32 bytes of value 2.
const REPLY: [u8; 46] = [
    4, 0, 0, 0, 2, 0, 0, 0, 0, 0, 0, 0, 1, 15, 93, 191, 119, 80, 252, 152, 208, 233, 124, 184, 149,
    51, 231, 227, 114, 100, 101, 13, 68, 205, 35, 108, 95, 255, 228, 239, 76, 139, 112, 64, 69,
    195,
];

#[test]
fn the_reply_of_a_failed_fetch_is_under_the_channels_key(rt: HostRuntime) -> Result<(), Fail> {
    let mut reply = ArrayVec::new();
    write_pull_failed(&mut reply, &TWOS, 2, 1);
    assert!(rt; reply.as_slice() == REPLY.as_slice());
    Ok(())
}
