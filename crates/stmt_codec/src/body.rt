//! What a certificate says.

ghost use Rattle.std.specs.Prelude.{◌≡◌};
ghost use Rattle.std.specs.Option.{option_map};
ghost use Rattle.prin_term.specs.View.{principal};
ghost use Rattle.stmt_codec.specs.Certificates.{certificate};
ghost use Rattle.stmt_codec.specs.Equality.{same_quoted, same_certificate};

use crate::distinct::same;
use prin_term::{Statement, Term};

/// What the key `issuer` says, alone or quoting another principal. It holds from `from` on and ends at
/// `until`, moments in the unit of the service's clock; `serial` tells bodies apart that are
/// otherwise equal.
#[derive(Drop)]
pub struct CertBody {
    pub issuer: u32,
    pub quoted: Option<Term>,
    pub statement: Statement,
    /// 0 where no beginning is named.
    pub from: u64,
    pub until: u64,
    pub serial: u64,
}

impl CertBody {
    ghost use Rattle.std.specs.Prelude.{◌≡◌, ◌↔◌, IsTrue};
    ghost use Rattle.std.specs.Option.{option_map};
    ghost use Rattle.prin_term.specs.View.{principal};
    ghost use Rattle.stmt_codec.specs.Certificates.{certificate, says, beginning};
    ghost use Rattle.stmt_codec.specs.Equality.{same_certificate};

    /// That `left` speaks for `right`, as the issuer says, quoting the principal if there is one. It
    /// has no beginning.
    pub fn says(
        issuer: u32,
        quoted: Option<Term>,
        left: Term,
        right: Term,
        until: u64,
        serial: u64,
    ) -> CertBody
        ensures { certificate result ≡ says issuer (option_map principal quoted)
            (principal left) (principal right) until serial }
    {
        CertBody {
            issuer,
            quoted,
            statement: Statement { left, right },
            from: 0,
            until,
            serial,
        }
    }

    /// The same, from this moment on.
    pub fn beginning(self, from: u64) -> CertBody
        ensures { certificate result ≡ beginning from (certificate self) }
    {
        CertBody { from, ..self }
    }

    /// Whether the two say the same.
    pub fn same(&self, other: &CertBody) -> bool
        ensures equal { IsTrue result ↔ (certificate self.now ≡ certificate other.now) }
        ensures test { result ≡ same_certificate (certificate self.now) (certificate other.now) }
    {
        is_same(self, other)
    }
}

fn same_quoted(quoted: &Option<Term>, other: &Option<Term>) -> bool
    ensures { result ≡ same_quoted (option_map principal quoted.now)
        (option_map principal other.now) }
{
    match (quoted, other) {
        (None, None) => true,
        (Some(term), Some(with)) => same(term, with),
        _ => false,
    }
}

fn is_same(body: &CertBody, other: &CertBody) -> bool
    ensures { result ≡ same_certificate (certificate body.now) (certificate other.now) }
{
    body.issuer == other.issuer
        && same_quoted(&body.quoted, &other.quoted)
        && same(&body.statement.left, &other.statement.left)
        && same(&body.statement.right, &other.statement.right)
        && body.from == other.from
        && body.until == other.until
        && body.serial == other.serial
}
