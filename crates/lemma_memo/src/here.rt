//! Where the commons stand in a question. Takes no memory.

ghost use Rattle.std.specs.Prelude.{◌≡◌, ◌≢◌, ℕ, ◌≤◌, List, length, slice_get, Some, IfSome, IsNone};
ghost use Rattle.std.specs.List.{AllZip};
ghost use Rattle.stmt_codec.specs.Certificates.{certificate};
ghost use Rattle.stmt_codec.specs.View.{certificates};
ghost use Rattle.taos_calculus.specs.declared.decide.TheConstants.{MAX_CERTS};
ghost use Rattle.lemma_memo.specs.Kept.{AreMarks, IsMarked, IsNumberOf};

use arrayvec::ArrayVec;
use std::sync::Arc;
use stmt_codec::Cert;
use taos_calculus::MAX_CERTS;

/// At each place of a question the number of the common that stands there and is chosen.
pub type Here = ArrayVec<Option<u8>, 64>;

/// Places of a question, or numbers of commons.
pub type Places = ArrayVec<u16, 64>;

/// Numbers of commons.
pub type Numbers = ArrayVec<u8, 64>;

// The number of the first common that says the same.
fn number_of(commons: &[Arc<Cert>], cert: &Cert) -> Option<u8>
    requires { length commons.now ≤ MAX_CERTS }
    ensures { IsNumberOf (certificates commons.now) (certificate cert.now.body) result }
{
    for number in 0..commons.len() {
        let common = &commons[number];
        if common.digest == cert.digest && common.body.same(&cert.body) {
            return Some(number as u8);
        }
    }
    None
}

/// Looks where the commons stand among these certificates.
pub fn look(here: &mut Here, commons: &[Arc<Cert>], certs: &[Arc<Cert>], chosen: &[bool])
    requires commons { length commons.now ≤ MAX_CERTS }
    requires certs { length certs.now ≤ MAX_CERTS }
    requires chosen { length chosen.now ≡ length certs.now }
    ensures marks { AreMarks (certificates commons.now) (certificates certs.now) chosen.now
        here.new.items }
    ensures long { length here.new.items ≡ length certs.now }
{
    here.clear();
    for place in 0..certs.len() {
        let number = if chosen[place] {
            number_of(commons, &certs[place])
        } else {
            None
        };
        here.push(number);
    }
}

// The first place at which the common of this number stands.
fn place_of(here: &Here, number: u8) -> Option<u16>
    ensures place { IfSome result (λ place. IsMarked here.now.items place number) }
    ensures none { IsNone result → (place : ℕ) → slice_get here.now.items place ≢ Some (Some number) }
{
    let marks = here.as_slice();
    for place in 0..marks.len() {
        if marks[place] == Some(number) {
            return Some(place as u16);
        }
    }
    None
}

/// A place for each of these commons, unless one is lacking.
pub fn places_of(here: &Here, numbers: &Numbers) -> Option<Places>
    ensures places { IfSome result
        (λ places. AllZip (IsMarked here.now.items) places.items numbers.now.items) }
    ensures none { IsNone result → (places : List ℕ) →
        AllZip (IsMarked here.now.items) places numbers.now.items → ⊥ }
{
    let mut places = Places::new();
    let wanted = numbers.as_slice();
    for at in 0..wanted.len() {
        places.push(place_of(here, wanted[at])?);
    }
    Some(places)
}

// The number of the common at the place.
fn number_at(here: &Here, place: u16) -> Option<u8>
    ensures { IfSome result (λ number. IsMarked here.now.items place number) }
{
    *here.as_slice().get(place as usize)?
}

/// The numbers of the commons at these places, where there stands one at each.
pub fn numbers_of(here: &Here, places: &[u16]) -> Option<Numbers>
    ensures { IfSome result
        (λ numbers. AllZip (IsMarked here.now.items) places.now numbers.items) }
{
    let mut numbers = Numbers::new();
    for at in 0..places.len() {
        let number = number_at(here, places[at])?;
        if numbers.is_full() {
            return None;
        }
        numbers.push(number);
    }
    Some(numbers)
}
