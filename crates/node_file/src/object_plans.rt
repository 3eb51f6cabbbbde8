//! The objects that a node is opened with.

ghost use Rattle.std.specs.Prelude.{◌≡◌, length, map, slice_get, IfOk, IfErr};
ghost use Rattle.std.specs.Option.{option_map};
ghost use Rattle.object_core.specs.Objects.{object_of};
ghost use Rattle.node_file.specs.Plans.{AreByNumber, IsAt, IsGapFor, plan};

use crate::object_plan::ObjectPlan;
use std::marker::Model;

/// Objects with numbers of their own. A contract sees their list, ascending by number.
#[derive(Drop)]
pub struct ObjectPlans {
    plans: Vec<ObjectPlan>,
}

impl Model for ObjectPlans {
    ghost use Rattle.std.specs.Prelude.{List, map};
    ghost use Rattle.std.specs.Coded.{codes};
    ghost use Rattle.prin_term.specs.Codes.{principal_code};
    ghost use Rattle.object_core.specs.Objects.{ObjectPlan as Plan};
    ghost use Rattle.node_file.specs.Plans.{AreByNumber, plan};

    ghost Value = { List Plan };

    ghost coded = { Prim.hlevel (codes, principal_code) };

    ghost view = { λ s. map plan s.plans.items };

    ghost invariant = { λ s. AreByNumber (map plan s.plans.items) };
}

impl ObjectPlans {
    /// These objects, whose numbers rise.
    pub fn of(plans: Vec<ObjectPlan>) -> ObjectPlans
        requires { AreByNumber (map plan plans.items) }
        ensures { result ≡ map plan plans.items }
    {
        ObjectPlans { plans }
    }

    /// The object of a number.
    pub fn get(&self, number: u32) -> Option<&ObjectPlan>
        ensures { option_map (λ p. plan p.now) result ≡ object_of self.now number }
    {
        match self.place_of(number) {
            Ok(place) => Some(&self.plans[place]),
            Err(_) => None,
        }
    }

    /// How many objects there are.
    pub fn count(&self) -> usize
        ensures count { result ≡ length self.now }
        ensures sound { AreByNumber self.now }
    {
        self.plans.len()
    }

    /// The object of a place. Places go from 0 by ascending number.
    pub fn at(&self, place: usize) -> Option<&ObjectPlan>
        ensures value { option_map (λ p. plan p.now) result ≡ slice_get self.now place }
        ensures sound { AreByNumber self.now }
    {
        self.plans.get(place)
    }

    // Where the number is, or where it would go.
    fn place_of(&self, number: u32) -> Result<usize, usize>
        ensures found { IfOk result (IsAt self.now number) }
        ensures absent { IfErr result (IsGapFor self.now number) }
        ensures sound { AreByNumber self.now }
    {
        self.plans.binary_search_by_key(&number, |plan| plan.number)
    }
}
