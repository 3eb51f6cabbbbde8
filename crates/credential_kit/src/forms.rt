//! The forms, one call for each. A call answers one certificate under its signer's seal.

ghost use Rattle.std.specs.Prelude.{IfOk};
ghost use Rattle.credential_kit.specs.Forms.{IsIssued, system, boot_of, channel_of, login_of};
ghost use Rattle.credential_kit.specs.Forms.{session_of, role_of, delegate_of};

use crate::issuing::{for_both, in_role, issue, key, logged_in, quoting, seat};
use crate::signer::Signer;
use prin_term::Term;
use std::alloc::{AllocError, Global};

/// The machine's word that the node's key `kn` is that of the system `os` on the machine `w`.
pub fn boot(
    alloc: Global,
    machine: &Signer,
    kn: u32,
    w: u32,
    os: u32,
    until: u64,
    serial: u64,
) -> Result<Vec<u8>, AllocError>
    ensures { IfOk result (λ bytes. IsIssued machine.now
        (boot_of machine.now.issuer kn w os until serial) bytes.items) }
{
    let left = Term::Key(kn);
    let right = in_role(alloc, w, os)?;
    issue(alloc, machine, None, left, right, until, serial)
}

/// The node's word that the channel `c` is its own.
pub fn channel(
    alloc: Global,
    node: &Signer,
    c: u32,
    until: u64,
    serial: u64,
) -> Result<Vec<u8>, AllocError>
    ensures { IfOk result (λ bytes. IsIssued node.now
        (channel_of node.now.issuer c until serial) bytes.items) }
{
    let left = Term::Key(c);
    let right = key(node.issuer);
    issue(alloc, node, None, left, right, until, serial)
}

/// The user's word, at the login on the machine `w` under the system `os`, that these together with
/// the session's key `ks` may speak for it, whose name is `u`.
pub fn login(
    alloc: Global,
    user: &Signer,
    w: u32,
    os: u32,
    ks: u32,
    u: u32,
    until: u64,
    serial: u64,
) -> Result<Vec<u8>, AllocError>
    ensures { IfOk result (λ bytes. IsIssued user.now
        (login_of user.now.issuer (system w os) ks u until serial) bytes.items) }
{
    let left = quoting(alloc, seat(alloc, w, os, ks)?, Term::Name(u))?;
    let right = for_both(alloc, seat(alloc, w, os, ks)?, Term::Name(u))?;
    issue(alloc, user, None, left, right, until, serial)
}

/// The session key's word that the channel `c` is its own.
pub fn session(
    alloc: Global,
    ks: &Signer,
    c: u32,
    until: u64,
    serial: u64,
) -> Result<Vec<u8>, AllocError>
    ensures { IfOk result (λ bytes. IsIssued ks.now
        (session_of ks.now.issuer c until serial) bytes.items) }
{
    channel(alloc, ks, c, until, serial)
}

/// The user's word that the key `k` speaks for it, whose name is `u`, in the role `r`.
pub fn role(
    alloc: Global,
    user: &Signer,
    k: u32,
    u: u32,
    r: u32,
    until: u64,
    serial: u64,
) -> Result<Vec<u8>, AllocError>
    ensures { IfOk result (λ bytes. IsIssued user.now
        (role_of user.now.issuer k u r until serial) bytes.items) }
{
    boot(alloc, user, k, u, r, until, serial)
}

/// The word of the channel `c`, quoting the user `u`, that the system `vos` on a second machine `v`
/// may speak for the first system, `os` on `w`, that speaks for the user.
pub fn delegate(
    alloc: Global,
    c: &Signer,
    u: u32,
    w: u32,
    os: u32,
    v: u32,
    vos: u32,
    until: u64,
    serial: u64,
) -> Result<Vec<u8>, AllocError>
    ensures { IfOk result (λ bytes. IsIssued c.now
        (delegate_of c.now.issuer u (system w os) (system v vos) until serial) bytes.items) }
{
    let left = quoting(alloc, in_role(alloc, v, vos)?, logged_in(alloc, w, os, u)?)?;
    let right = for_both(alloc, in_role(alloc, v, vos)?, logged_in(alloc, w, os, u)?)?;
    issue(alloc, c, Some(Term::Name(u)), left, right, until, serial)
}
