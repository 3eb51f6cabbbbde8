//! The shares of a cell, as a law.

ghost use Rattle.std.specs.Prelude.{◌≡◌};
ghost use Rattle.turn_cell.specs.declared.shares.TheConstants.{ALL_SHARES};

/// A cell has 65,536 shares.
pub fn limits_are()
    ensures { ALL_SHARES ≡ 65536 }
{}
