//! Calls that are met with rooms.
use scarce::{GREATEST_ROOM, Shortage, check};
use std::alloc::Global;
use std::test::Fail;

// What came of a call: it was refused memory, it gave the answer that is wanted, or anything else.
#[derive(Clone, Copy, PartialEq, Eq)]
pub(crate) enum Came {
    Refused,
    Right,
    Wrong,
}

pub(crate) fn right_if(holds: bool) -> Came {
    if holds { Came::Right } else { Came::Wrong }
}

// Rooms in bytes: the first, and how many, each greater by `step`.
#[derive(Clone, Copy)]
pub(crate) struct Rooms {
    pub(crate) first: usize,
    pub(crate) count: usize,
    pub(crate) step: usize,
}

impl Rooms {
    fn room(self, place: usize) -> usize {
        self.first.saturating_add(place.saturating_mul(self.step))
    }
}

// For calls that take small blocks.
pub(crate) const SMALL: Rooms = Rooms {
    first: 0,
    count: 1024,
    step: 16,
};

// For calls that take a piece of 65,536 bytes, and small blocks with it.
pub(crate) const PIECES: Rooms = Rooms {
    first: 65_408,
    count: 1024,
    step: 64,
};

// For texts, which take a piece and room for twice as much, and for commands, whose words take small blocks before that.
pub(crate) const RUNS: Rooms = Rooms {
    first: 0,
    count: 8192,
    step: 64,
};

// How often a call was refused, and how often it gave the answer that is wanted.
#[derive(Clone, Copy)]
pub(crate) struct Seen {
    refused: usize,
    right: usize,
}

// Meets a call with each room. It has to be refused in some, to answer in others, and to do nothing else.
pub(crate) fn meet<F>(
    alloc: Global,
    shortage: &mut Shortage,
    rooms: Rooms,
    call: F,
) -> Result<(), Fail>
where
    F: Fn(Global) -> Came,
    requires { F.IsAlwaysCallable call }
{
    let mut seen = Seen {
        refused: 0,
        right: 0,
    };
    for place in 0..rooms.count {
        shortage.leave(alloc, rooms.room(place))?;
        let came = call(alloc);
        shortage.relax(alloc);
        note(&mut seen, came)?;
    }
    check(seen.refused > 0, "never refused")?;
    check(seen.right > 0, "never answered")
}

// Meets a call with each room, in a shortage of its own.
pub(crate) fn meet_alone<F>(alloc: Global, rooms: Rooms, call: F) -> Result<(), Fail>
where
    F: Fn(Global) -> Came,
    requires { F.IsAlwaysCallable call }
{
    let mut shortage = Shortage::new(alloc)?;
    meet(alloc, &mut shortage, rooms, call)?;
    drop(shortage);
    Ok(())
}

// Meets a call with the greatest room: it has to answer there.
pub(crate) fn meet_greatest<F>(alloc: Global, call: F) -> Result<(), Fail>
where
    F: Fn(Global) -> Came,
    requires { F.IsAlwaysCallable call }
{
    let mut shortage = Shortage::new(alloc)?;
    shortage.leave(alloc, GREATEST_ROOM)?;
    let came = call(alloc);
    drop(shortage);
    check(came == Came::Right, "no answer in the greatest room")
}

fn note(seen: &mut Seen, came: Came) -> Result<(), Fail> {
    match came {
        Came::Refused => seen.refused = seen.refused.saturating_add(1),
        Came::Right => seen.right = seen.right.saturating_add(1),
        Came::Wrong => return Err(Fail::from("another answer")),
    }
    Ok(())
}
