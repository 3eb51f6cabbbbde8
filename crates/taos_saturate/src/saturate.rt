//! Adding lines until no step gives anything new.

ghost use Rattle.taos_saturate.specs.Saturating.{IsReady, IsFull, IsSound, IsGrown};

use crate::saturation::Saturation;

impl Saturation {
    /// Adds lines, round by round, until a look over all pairs finds no step that gives anything new.
    pub fn saturate(&mut self)
        requires ready { IsReady self.old }
        requires sound { IsSound self.old }
        ensures grown { IsGrown self.old self.new }
        ensures full { IsFull self.new }
    {
        self.round();
        while let Some(line) = self.new_line() {
            self.add(line);
            self.round();
        }
    }
}
