//! What an Ask is judged by.

ghost use Rattle.std.specs.Prelude.{◌≡◌, ◌<◌, ◌++◌, length, All, OnOk};
ghost use Rattle.stmt_codec.specs.View.{certificates};
ghost use Rattle.shard_core.specs.Kept.{certs_staying};
ghost use Rattle.shard_core.specs.Names.{certs_at, AreNames};

use crate::held::book::Book;
use crate::held::name::{Names, cert_named};
use crate::held::newness::Places;
use crate::held::removal::{Removal, lets_go};
use std::alloc::{AllocError, Global};
use std::sync::Arc;
use stmt_codec::Cert;

/// Appends handles to the certificates of names, those that stay.
pub(crate) fn push_left(
    out: &mut Vec<Arc<Cert>>,
    book: &Book<'_>,
    names: &Names,
    removal: &Removal,
) -> Result<(), AllocError>
    requires { AreNames book.now names.now.items }
    ensures { OnOk result (certificates out.new.items ≡ certificates out.old.items
        ++ certs_staying book.now removal.now names.now.items) }
{
    for at in 0..names.len() {
        let name = names.as_slice()[at];
        let cert = cert_named(book, name);
        if !lets_go(removal, cert) {
            out.push(Arc::try_clone(cert)?)?;
        }
    }
    Ok(())
}

/// Appends handles to the certificates at these places.
pub(crate) fn push_at(
    out: &mut Vec<Arc<Cert>>,
    presented: &[Arc<Cert>],
    places: &Places,
) -> Result<(), AllocError>
    requires { All (λ i. i < length presented.now) places.now.items }
    ensures { OnOk result (certificates out.new.items ≡ certificates out.old.items
        ++ certs_at (certificates presented.now) places.now.items) }
{
    for at in 0..places.len() {
        let place = places.as_slice()[at];
        out.push(Arc::try_clone(&presented[place as usize])?)?;
    }
    Ok(())
}
