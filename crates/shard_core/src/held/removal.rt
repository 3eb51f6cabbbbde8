//! Which certificates are let go.

ghost use Rattle.std.specs.Prelude.{◌≡◌, ◌≤◌, filter, length};
ghost use Rattle.stmt_codec.specs.Certificates.{certificate};
ghost use Rattle.shard_core.specs.declared.held.removal.Removal.TheVariants as removal;
ghost use Rattle.agent_core.specs.declared.limits.TheConstants.{MAX_OWN};
ghost use Rattle.shard_core.specs.Kept.{lets_go, name_stays};
ghost use Rattle.shard_core.specs.Names.{AreNames};

use crate::held::book::Book;
use crate::held::name::{Names, cert_named};
use stmt_codec::Cert;

#[derive(Drop)]
pub(crate) enum Removal {
    /// None.
    Nothing,
    /// Those that ended, at the moment, as long ago as they are kept.
    Ended { keep: u64, moment: u64 },
    /// Those of this digest.
    Named { digest: [u8; 32] },
    /// Those of this issuer.
    Issued { issuer: u32 },
}

/// The removal of what is gone by the moment.
pub(crate) fn gone_by(book: &Book<'_>, moment: u64) -> Removal
    ensures { result ≡ removal.Ended book.now.plan.keep moment }
{
    Removal::Ended {
        keep: book.plan.keep,
        moment,
    }
}

/// Whether the certificate is let go.
pub(crate) fn lets_go(removal: &Removal, cert: &Cert) -> bool
    ensures { result ≡ lets_go removal.now (certificate cert.now.body) }
{
    match removal {
        Removal::Nothing => false,
        Removal::Ended { keep, moment } => {
            cert.body.until <= *moment && *keep <= *moment - cert.body.until
        }
        Removal::Named { digest } => cert.digest == *digest,
        Removal::Issued { issuer } => cert.body.issuer == *issuer,
    }
}

/// How many of the names stay.
pub(crate) fn count_left(book: &Book<'_>, names: &Names, removal: &Removal) -> usize
    requires { AreNames book.now names.now.items }
    ensures count { result ≡ length (filter (name_stays book.now removal.now) names.now.items) }
    ensures few { result ≤ MAX_OWN }
{
    let mut count = 0;
    for place in 0..names.len() {
        let name = names.as_slice()[place];
        if !lets_go(removal, cert_named(book, name)) {
            count += 1;
        }
    }
    count
}

// The names of those that stay.
fn left_of(book: &Book<'_>, names: &Names, removal: &Removal) -> Names
    requires { AreNames book.now names.now.items }
    ensures { result.items ≡ filter (name_stays book.now removal.now) names.now.items }
{
    let mut left = Names::new();
    for place in 0..names.len() {
        let name = names.as_slice()[place];
        if !lets_go(removal, cert_named(book, name)) {
            left.push(name);
        }
    }
    left
}

// Lets go of names. It is called where some go, since the room for those that stay is cleared first.
fn let_go(book: &Book<'_>, names: &mut Names, removal: &Removal)
    requires { AreNames book.now names.old.items }
    ensures { names.new.items ≡ filter (name_stays book.now removal.now) names.old.items }
{
    *names = left_of(book, names, removal);
}

/// Lets go of names, where so many of them stay. Where all do, nothing is written.
pub(crate) fn keep_left(book: &Book<'_>, names: &mut Names, removal: &Removal, count: usize)
    requires names { AreNames book.now names.old.items }
    requires count { count ≡ length (filter (name_stays book.now removal.now) names.old.items) }
    ensures names { names.new.items ≡ filter (name_stays book.now removal.now) names.old.items }
    ensures count { length names.new.items ≡ count }
{
    if count < names.len() {
        let_go(book, names, removal);
    }
}

/// Lets go of names. Where all stay, nothing is written.
pub(crate) fn sweep(book: &Book<'_>, names: &mut Names, removal: &Removal)
    requires { AreNames book.now names.old.items }
    ensures { names.new.items ≡ filter (name_stays book.now removal.now) names.old.items }
{
    let count = count_left(book, names, removal);
    keep_left(book, names, removal, count);
}
