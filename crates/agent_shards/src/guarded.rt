//! An object as the value of a turn cell.

ghost use Rattle.std.specs.Prelude.{◌≡◌, ◌≤◌, length};
ghost use Rattle.agent_shards.specs.Room.{HasRoom};
ghost use Rattle.object_core.specs.Shelving.{fixed_of};

use crate::models::{ObjectEntryModel, ObjectModel};
use object_core::Object;
use std::marker::Model;
use turn_cell::Journaled;

/// An object, which is small enough to move in and out of a cell.
#[derive(Drop)]
pub struct Guarded {
    object: Object,
}

impl Model for Guarded {
    ghost use Rattle.std.specs.Coded.{codes};
    ghost use Rattle.prin_term.specs.Codes.{principal_code};
    ghost use Rattle.object_core.specs.Objects.{ObjectSeen};

    ghost Value = { ObjectSeen };

    ghost coded = { Prim.hlevel (codes, principal_code) };

    ghost view = { λ g. g.object };
}

impl Journaled for Guarded {
    type Fixed = ObjectModel;

    type Entry = ObjectEntryModel;

    ghost fixed = { λ g. fixed_of g };

    ghost journal = { λ g. g.journal };

    ghost allows = { λ fixed before entry. HasRoom fixed before entry };

    fn length(&self) -> u64 {
        self.object.journal().len() as u64
    }

    // A turn is a ruling, longer than what of an object moves with it takes.
    fn longest_pause() -> u32 {
        16
    }
}

const _: () = prove!(size_of::<Guarded>() <= 64);

impl Guarded {
    pub fn new(object: Object) -> Guarded
        ensures object { result ≡ object }
        ensures within { length object.journal ≤ object.limit }
    {
        // It says that the journal is within its limit.
        let _journal = object.journal();
        Guarded { object }
    }

    pub fn into_object(self) -> Object
        ensures { result ≡ self }
    {
        self.object
    }
}
