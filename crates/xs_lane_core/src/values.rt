/// A value of the machine. `closes` says that no value of its lane stands behind it.
#[derive(Clone, Copy, PartialEq, Eq)]
pub struct Numbered {
    /// The lane that the value belongs to.
    pub lane: u32,
    /// Its place in the lane, below `PLACES`.
    pub place: u32,
    /// Whether the lane ends at this place.
    pub closes: bool,
    /// What tells this value from others of the same place.
    pub number: u64,
}

/// What an actor does next. Actors are numbered from 0 in the order in which they were made.
#[derive(Clone, Copy)]
pub enum Event {
    Take { actor: u64, value: Numbered },
    Put { actor: u64 },
    Home { actor: u64 },
    Sum { actor: u64 },
    Look { actor: u64, lane: u32 },
    Claim { actor: u64 },
    Pull { actor: u64 },
    Split { actor: u64 },
    Join { actor: u64, other: u64 },
}

/// What the machine answers to an event.
#[derive(Clone, Copy, PartialEq, Eq)]
pub enum Outcome {
    /// The place was free and is now the actor's.
    Taken,
    /// The place was taken before, and the value is given back.
    Back { value: Numbered },
    /// The value lies at its place.
    Laid,
    /// The value is home, and what it fills is owed to the lane's summary.
    Owing,
    /// The value is home, and nothing is owed.
    Stored,
    /// The lane is whole by the words that were owed.
    Made,
    /// The words of the lane that its summary has, one bit each.
    Seen { mask: u64 },
    /// The actor has claimed the lane.
    Claimed,
    /// The lane was claimed before.
    Gone,
    /// The value of the next place, which is now the actor's.
    Pulled { value: Numbered },
    /// The number of the new actor.
    Split { actor: u64 },
    /// The other actor is spent.
    Joined,
    /// The actor may not do this now, or an actor, lane or place is not there. Nothing has changed.
    Refused,
}

/// Where an actor stands between two events.
#[derive(Clone, Copy)]
pub enum Stand<V> {
    Idle,
    /// It saw that the lane is whole.
    Saw { lane: u32 },
    /// It has taken the value's place.
    Holding { value: V },
    /// It has put the value at its place.
    Laid { value: V },
    /// It has stored a value, and owes these words to the lane's summary.
    Owing { lane: u32, words: u64 },
    /// It has claimed the lane, and pulls the value of this place next.
    Pulling { lane: u32, place: u32 },
    /// It was joined into another.
    Spent,
}
