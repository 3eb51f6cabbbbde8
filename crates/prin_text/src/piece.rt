//! What was read of a principal.

ghost use Rattle.std.specs.Prelude.{◌≡◌, IfOk};
ghost use Rattle.prin_text.specs.Pieces as pieces;
ghost use Rattle.prin_text.specs.Reading as reading;
ghost use Rattle.prin_text.specs.View as meant;

use prin_term::{MAX_DEPTH, Term};
use std::alloc::{AllocError, Global};

/// A compound of two.
#[derive(Clone, Copy)]
pub enum Compound {
    And,
    Quote,
    For,
}

/// A principal with its depth; or one that is too deep, of which nothing is kept.
#[derive(Drop)]
pub enum Part {
    Built(Term, u32),
    Deep,
}

/// Which operand is due.
#[derive(Drop)]
pub enum Due {
    First,
    Second(Part, Compound),
}

/// What stands there of a principal.
#[derive(Drop)]
pub enum Place {
    Operand(Due),
    One(Part),
    Role(Part),
    Whole(Part),
}

impl Part {
    // The compound of two.
    pub fn joined(
        alloc: Global,
        compound: Compound,
        left: Part,
        right: Part,
    ) -> Result<Part, AllocError>
        ensures { IfOk result (λ p. meant.piece p
            ≡ pieces.joined (meant.kind compound) (meant.piece left) (meant.piece right)) }
    {
        let Part::Built(left, levels) = left else {
            return Ok(Part::Deep);
        };
        let Part::Built(right, others) = right else {
            return Ok(Part::Deep);
        };
        let below = levels.max(others);
        if below >= MAX_DEPTH {
            return Ok(Part::Deep);
        }
        let left = Box::new(alloc, left)?;
        let right = Box::new(alloc, right)?;
        let term = match compound {
            Compound::And => Term::And(left, right),
            Compound::Quote => Term::Quote(left, right),
            Compound::For => Term::For(left, right),
        };
        Ok(Part::Built(term, below + 1))
    }

    // The part in a role.
    pub fn in_role(self, alloc: Global, role: u32) -> Result<Part, AllocError>
        ensures { IfOk result (λ p. meant.piece p ≡ pieces.in_role (meant.piece self) role) }
    {
        let Part::Built(term, below) = self else {
            return Ok(Part::Deep);
        };
        if below >= MAX_DEPTH {
            return Ok(Part::Deep);
        }
        let term = Box::new(alloc, term)?;
        Ok(Part::Built(Term::AsRole(term, role), below + 1))
    }
}

impl Due {
    // What stands there once the operand that was due is read.
    pub fn filled(self, alloc: Global, part: Part) -> Result<Place, AllocError>
        ensures { IfOk result (λ p. meant.place p
            ≡ reading.filled (meant.due self) (meant.piece part)) }
    {
        match self {
            Due::First => Ok(Place::One(part)),
            Due::Second(left, compound) => {
                Ok(Place::Whole(Part::joined(alloc, compound, left, part)?))
            }
        }
    }
}
