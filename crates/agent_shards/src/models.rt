//! What the contracts of cells say of fixed data and of entries. No value of these is made.

use agent_core::{ShardEntry, ShardPlan};
use object_core::{Object, ObjectEntry};
use std::marker::Model;

/// Stands for a plan.
#[derive(Drop)]
pub struct PlanModel {
    plan: ShardPlan,
}

impl Model for PlanModel {
    ghost use Rattle.std.specs.Coded.{codes};
    ghost use Rattle.prin_term.specs.Codes.{principal_code};
    ghost use Rattle.agent_core.specs.State.{Plan};
    ghost use Rattle.agent_core.specs.Views.{plan_of};

    ghost Value = { Plan };

    ghost coded = { Prim.hlevel (codes, principal_code) };

    ghost view = { λ p. plan_of p.plan };
}

/// Stands for an entry of a shard's journal.
#[derive(Drop)]
pub struct EntryModel {
    entry: ShardEntry,
}

impl Model for EntryModel {
    ghost use Rattle.std.specs.Coded.{codes};
    ghost use Rattle.prin_term.specs.Codes.{principal_code};
    ghost use Rattle.agent_core.specs.Journals.{Entry};
    ghost use Rattle.agent_core.specs.Views.{entry_of};

    ghost Value = { Entry };

    ghost coded = { Prim.hlevel (codes, principal_code) };

    ghost view = { λ e. entry_of e.entry };
}

/// Stands for what never changes of an object.
#[derive(Drop)]
pub struct ObjectModel {
    object: Object,
}

impl Model for ObjectModel {
    ghost use Rattle.std.specs.Coded.{codes};
    ghost use Rattle.prin_term.specs.Codes.{principal_code};
    ghost use Rattle.object_core.specs.Shelving.{ObjectFixed, fixed_of};

    ghost Value = { ObjectFixed };

    ghost coded = { Prim.hlevel (codes, principal_code) };

    ghost view = { λ o. fixed_of o.object };
}

/// Stands for an entry of an object's journal.
#[derive(Drop)]
pub struct ObjectEntryModel {
    entry: ObjectEntry,
}

impl Model for ObjectEntryModel {
    ghost use Rattle.std.specs.Coded.{codes};
    ghost use Rattle.prin_term.specs.Codes.{principal_code};
    ghost use Rattle.object_core.specs.ObjectView.{object_entry};
    ghost use Rattle.object_core.specs.Objects.{ObjectEntry};

    ghost Value = { ObjectEntry };

    ghost coded = { Prim.hlevel (codes, principal_code) };

    ghost view = { λ e. object_entry e.entry };
}
