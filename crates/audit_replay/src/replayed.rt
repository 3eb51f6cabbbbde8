//! What journals come to beside an opening.

/// A shard or an object, by its number.
#[derive(Clone, Copy, PartialEq, Eq, Hash)]
pub enum Cell {
    Shard(u32),
    Object(u32),
}

/// Why an entry fails, in the order in which the causes are looked at.
#[derive(Clone, Copy, PartialEq, Eq, Hash)]
pub enum ReplayCause {
    /// The journals are not those of the opening's shards and objects. It comes before all others, at
    /// shard 0 and place 0.
    Cells,
    /// The journal has an entry more than it may have.
    Limit,
    /// What is to be kept is no proof for the Ask that it names.
    Keep,
    /// What was told is not what the shard would tell, or the event is none that it takes.
    Told,
    /// The entry of an object names no Ask that was to be judged, or one with another right or list.
    Ask,
    /// The Ask was named by an earlier entry of an object.
    Again,
    /// The ruling is not the one that is due to the Ask.
    Ruling,
}

#[derive(Clone, Copy, PartialEq, Eq)]
pub enum Replayed {
    /// How many entries there are, those of objects too.
    Legal {
        entries: u64,
    },
    /// The first byte that can't stand where it does, or the length where bytes are lacking.
    Malformed {
        offset: usize,
    },
    /// The first entry that fails, shards before objects.
    Illegal {
        cell: Cell,
        place: u64,
        cause: ReplayCause,
    },
}
