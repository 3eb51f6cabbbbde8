//! Laws of rows in the order of their numbers, each the contract of a function that does nothing.

ghost use Rattle.std.specs.Prelude.{ℕ};
ghost use Rattle.byte_fields.specs.RowLaws.{SearchesEnd, PlacesTell, GapsTake};

/// A binary search by number ends at the number, or at the gap for it.
pub fn searches_end<A>()
    ensures { (number : A → ℕ) (default : A) → SearchesEnd number default }
{}

/// A number that has a gap finds nothing, and one that stands at a place finds what is there.
pub fn places_tell<A, V>()
    ensures { (number : A → ℕ) (value : A → V) (default : A)
        → PlacesTell number value default }
{}

/// A row that is put into the gap for its number keeps the order, is found by its number, and
/// changes what no other number finds.
pub fn gaps_take<A, V>()
    ensures { (number : A → ℕ) (value : A → V) (default : A)
        → GapsTake number value default }
{}
