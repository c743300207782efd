//! The rooms that a shortage leaves.
use scarce::{GREATEST_ROOM, Shortage, check};
use std::alloc::Global;
use std::test::Fail;

fn is_given(alloc: Global, size: usize) -> bool {
    Vec::<u8>::with_capacity(alloc, size).is_ok()
}

// A block as large as the room is given, but for what the allocator keeps of it, and no larger one.
fn check_room(alloc: Global, shortage: &mut Shortage, room: usize) -> Result<(), Fail> {
    shortage.leave(alloc, room)?;
    let within = is_given(alloc, room.saturating_sub(8));
    let beyond = is_given(alloc, room.saturating_add(16));
    shortage.relax(alloc);
    check(within, "a room is too small")?;
    check(!beyond, "a room is too large")
}

fn check_rooms(alloc: Global, shortage: &mut Shortage) -> Result<(), Fail> {
    for step in 2..512usize {
        check_room(alloc, shortage, 16 * step)?;
    }
    check_room(alloc, shortage, 65_536)?;
    check_room(alloc, shortage, GREATEST_ROOM)?;
    check(is_given(alloc, GREATEST_ROOM), "memory is still short")
}

#[test]
fn blocks_are_as_large_as_their_rooms(rt: HostRuntime) -> Result<(), Fail> {
    let alloc = rt.alloc();
    let mut shortage = Shortage::new(alloc)?;
    let checked = check_rooms(alloc, &mut shortage);
    drop(shortage);
    checked?;
    check(is_given(alloc, 1_073_741_824), "memory is still held")
}
