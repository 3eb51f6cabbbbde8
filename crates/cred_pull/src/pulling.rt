//! Pulling the certificates of a request.

ghost use Rattle.std.specs.Prelude.{◌≡◌, ◌+◌, ◌<◌, ◌≤◌, ◌++◌, All, IfErr, IfOk, OnOk, length, map};
ghost use Rattle.std.specs.Prelude.{option_map, option_to_list};
ghost use Rattle.sealed_cert.specs.Seals.{sealed as sealed_form};
ghost use Rattle.sealed_cert.specs.declared.kind.TheConstants.{RELAYED};
ghost use Rattle.stmt_codec.specs.Certificates.{IsWithinLimits, certificate};
ghost use Rattle.relay_core.specs.Credentials.{link_use};
ghost use Rattle.taos_wire.specs.Request.{FitsRequest};
ghost use Rattle.taos_wire.specs.View.{request, text_of};
ghost use Rattle.cred_pull.specs.declared.pulling.PullStop.TheVariants.{NoMemory};
ghost use Rattle.cred_pull.specs.Pulling.{AllAreLeftOff, AllArePulled, OneIsLeftOff, OneIsPulled};
ghost use Rattle.cred_pull.specs.Pulling.{HasPlace, Pulls, Remains, TakesIn, pull_use, stop_at, used};

use crate::fetch::{Fetch, Fetched};
use crate::opening::{Opens, Presenter};
use frame_link::{Failed, RelayLink};
use keyed_seal::Sealer;
use relay_core::{MAX_CERT, OpenedCerts, Unpresented};
use sealed_cert::seal_relayed_with;
use std::alloc::{AllocError, Global};
use stmt_codec::CertBody;
use taos_wire::{MAX_CERTS, Request};

/// What came of a pull.
#[derive(Clone, Copy, PartialEq, Eq)]
pub enum Pulled {
    /// Of the fetched certificates those that open stand behind those that the request presents.
    Ready,
    /// The fetch failed.
    PullFailed,
    /// The link to the relay failed at the certificate of this index. Those that the request
    /// presents are counted before the fetched ones.
    RelayFailed { index: u8 },
    /// Memory was refused.
    NoMemory,
}

// Why one fetched certificate was not pulled.
#[derive(Clone, Copy)]
pub(crate) enum LeftOff {
    // The call of the link failed.
    LinkFailed,
    // Memory was refused.
    NoMemory,
}

// Why fetched certificates were not pulled.
#[derive(Clone, Copy)]
pub(crate) enum PullStop {
    // The call of the link failed at this one.
    LinkFailed { place: usize },
    // Memory was refused.
    NoMemory,
}

impl From<AllocError> for PullStop {
    ghost from_gives = { λ _ e. e ≡ NoMemory };

    fn from(_e: AllocError) -> PullStop {
        PullStop::NoMemory
    }
}

fn stop_at(place: usize, why: LeftOff) -> PullStop
    ensures { result ≡ stop_at place why }
{
    match why {
        LeftOff::LinkFailed => PullStop::LinkFailed { place },
        LeftOff::NoMemory => PullStop::NoMemory,
    }
}

// The certificate under the relay's seal.
fn sealed(alloc: Global, key: &Sealer, body: &CertBody) -> Result<Vec<u8>, AllocError>
    requires { IsWithinLimits (certificate body.now) }
    ensures { IfOk result (λ v. text_of v ≡ sealed_form RELAYED key.now (certificate body.now)) }
{
    let mut form = Vec::new(alloc);
    seal_relayed_with(&mut form, key, body)?;
    Ok(form)
}

// The form of one fetched certificate under the relay's seal, and none where it is refused or too
// long.
fn form_of<O: Opens>(
    alloc: Global,
    key: &Sealer,
    by: &mut O,
    text: &[u8],
) -> Result<Option<Vec<u8>>, LeftOff>
    requires one_key { (O.shown by.old).key ≡ key.now }
    ensures pulled { IfOk result (λ form. OneIsPulled key.now
        (used (O.shown by.old) (O.shown by.new))
        text.now (option_to_list (option_map text_of form))) }
    ensures left_off { IfErr result (OneIsLeftOff
        (used (O.shown by.old) (O.shown by.new)) text.now) }
    ensures rest { Remains (O.shown by.old) (O.shown by.new) }
{
    if text.len() > MAX_CERT {
        return Ok(None);
    }
    match by.open(alloc, text) {
        Ok(cert) => match sealed(alloc, key, &cert.body) {
            Ok(form) => Ok(Some(form)),
            Err(_) => Err(LeftOff::NoMemory),
        },
        Err(Unpresented::Refused { .. }) => Ok(None),
        Err(Unpresented::LinkFailed) => Err(LeftOff::LinkFailed),
        Err(Unpresented::NoMemory) => Err(LeftOff::NoMemory),
    }
}

// Appends a form, if there is one.
fn add_form(forms: &mut Vec<Vec<u8>>, form: Option<Vec<u8>>) -> Result<(), AllocError>
    ensures { OnOk result (map text_of forms.new.items
        ≡ map text_of forms.old.items ++ option_to_list (option_map text_of form)) }
{
    if let Some(form) = form {
        forms.push(form)?;
    }
    Ok(())
}

// The forms of all that open, in order.
fn forms_of<O: Opens>(
    alloc: Global,
    key: &Sealer,
    by: &mut O,
    texts: &[Vec<u8>],
) -> Result<Vec<Vec<u8>>, PullStop>
    requires one_key { (O.shown by.old).key ≡ key.now }
    ensures pulled { IfOk result (λ forms. AllArePulled key.now
        (used (O.shown by.old) (O.shown by.new))
        (map text_of texts.now) (map text_of forms.items)) }
    ensures left_off { IfErr result (AllAreLeftOff key.now
        (used (O.shown by.old) (O.shown by.new)) (map text_of texts.now)) }
    ensures place { IfErr result (HasPlace (map text_of texts.now)) }
    ensures rest { Remains (O.shown by.old) (O.shown by.new) }
{
    let mut forms = Vec::new(alloc);
    for place in 0..texts.len() {
        match form_of(alloc, key, by, &texts[place]) {
            Ok(form) => add_form(&mut forms, form)?,
            Err(why) => return Err(stop_at(place, why)),
        }
    }
    Ok(forms)
}

// The index of a fetched certificate, behind those that are presented.
fn index_of(presented: usize, place: usize) -> u8
    requires { presented + place < 256 }
    ensures { result ≡ presented + place }
{
    (presented + place) as u8
}

// Appends those of the fetched certificates that open.
fn append_opened<O: Opens>(
    alloc: Global,
    key: &Sealer,
    by: &mut O,
    fetched: &[Vec<u8>],
    asked: &mut Request,
) -> Pulled
    requires fits { FitsRequest (request asked.old) }
    requires one_key { (O.shown by.old).key ≡ key.now }
    ensures takes { TakesIn key.now (used (O.shown by.old) (O.shown by.new))
        (map text_of fetched.now) (request asked.old) (request asked.new) result }
    ensures fits { FitsRequest (request asked.new) }
    ensures short { All (λ t. length t ≤ 65531) (request asked.old).certs
        → All (λ t. length t ≤ 65531) (request asked.new).certs }
    ensures rest { Remains (O.shown by.old) (O.shown by.new) }
{
    let presented = asked.certs.len();
    let most = (MAX_CERTS as usize - presented).min(fetched.len());
    match forms_of(alloc, key, by, &fetched[..most]) {
        Ok(mut forms) => match asked.certs.append(&mut forms) {
            Ok(()) => Pulled::Ready,
            Err(_) => Pulled::NoMemory,
        },
        Err(PullStop::LinkFailed { place }) => Pulled::RelayFailed {
            index: index_of(presented, place),
        },
        Err(PullStop::NoMemory) => Pulled::NoMemory,
    }
}

/// Fetches the certificates of a request from its caller, and appends those that open, under the
/// node's key, to those that it presents, as the relay would seal them for the node. Of what is
/// fetched the first that, with the presented ones, are at most 16 are looked at; what is refused is
/// skipped. Unless it is ready the request stays as it was. `opened` has the node's key.
pub fn pull_with<P: Fetch, R: RelayLink>(
    alloc: Global,
    node: u32,
    key: &Sealer,
    opened: &mut OpenedCerts,
    fetch: &mut P,
    link: &mut R,
    asked: &mut Request,
) -> Pulled
    requires fits { FitsRequest (request asked.old) }
    requires one_key { opened.old ≡ key.now }
    ensures pulls { Pulls key.now
        (pull_use (P.shown fetch.old) (P.shown fetch.new)
        (link_use node (R.shown link.old) (R.shown link.new)))
        (request asked.old) (request asked.new) result }
    ensures fits { FitsRequest (request asked.new) }
    // What was short enough to be sent to a relay stays so.
    ensures short { All (λ t. length t ≤ 65531) (request asked.old).certs
        → All (λ t. length t ≤ 65531) (request asked.new).certs }

    // What nobody changes.
    ensures key { opened.new ≡ opened.old }
    ensures same_fetch { P.borrows fetch.new ≡ P.borrows fetch.old }
    ensures same_link { R.borrows link.new ≡ R.borrows link.old }
{
    let fetched = match fetch.fetch(alloc, asked.channel, asked.seq) {
        Ok(Fetched::Given(certs)) => certs,
        Ok(Fetched::NoMemory) => return Pulled::NoMemory,
        Err(Failed) => return Pulled::PullFailed,
    };
    let mut by = Presenter { node, opened, link };
    append_opened(alloc, key, &mut by, &fetched, asked)
}

/// As `pull_with`, by a key alone.
pub fn pull<P: Fetch, R: RelayLink>(
    alloc: Global,
    node: u32,
    relay_key: &[u8; 32],
    fetch: &mut P,
    link: &mut R,
    asked: &mut Request,
) -> Pulled
    requires fits { FitsRequest (request asked.old) }
    ensures pulls { Pulls relay_key.now
        (pull_use (P.shown fetch.old) (P.shown fetch.new)
        (link_use node (R.shown link.old) (R.shown link.new)))
        (request asked.old) (request asked.new) result }
    ensures fits { FitsRequest (request asked.new) }
    ensures short { All (λ t. length t ≤ 65531) (request asked.old).certs
        → All (λ t. length t ≤ 65531) (request asked.new).certs }
    ensures same_fetch { P.borrows fetch.new ≡ P.borrows fetch.old }
    ensures same_link { R.borrows link.new ≡ R.borrows link.old }
{
    let key = Sealer::of(relay_key);
    let mut opened = OpenedCerts::keeping_none(&key);
    pull_with(alloc, node, &key, &mut opened, fetch, link, asked)
}
