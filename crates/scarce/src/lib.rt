//! Want of memory for tests: a process takes what memory it can get, so that what it asks for next is refused.
#![tactic(auto)]

ghost use Rattle.std.specs.Prelude.{◌≡◌, is_ok};

use std::alloc::{AllocError, Global};
use std::test::Fail;

/// The greatest room that a shortage leaves, in bytes.
pub const GREATEST_ROOM: usize = 524_288;

// The heap that is kept for the time in which nothing is short, in bytes.
const KEPT: usize = 32_000_000;

// A mapping of this size, in bytes, that is given back has the C library take smaller blocks from the heap.
const MAPPING: usize = 33_000_000;

// The most blocks that are held, of address space and of the heap.
const MOST_BLOCKS: usize = 100_000;

// Of small blocks that are given back the C library keeps so many of each size as they are, and joins the others with
// what is free beside them.
const CACHED: usize = 7;

// How many sizes it keeps so: 24 bytes, and each 16 more.
const CACHED_SIZES: usize = 64;

/// Fails by the words where something doesn't hold. It asks for no memory, which is short in these tests.
///
/// # Errors
/// It doesn't hold.
pub fn check(holds: bool, words: &'static str) -> Result<(), Fail>
    ensures { is_ok result ≡ holds }
{
    if holds {
        Ok(())
    } else {
        Err(Fail::from(words))
    }
}

/// All memory that the process can get, but for 32,000,000 bytes of its heap. Of these it takes in turn all beyond a room
/// that a test states, and gives them back. A drop gives back all.
///
/// It rests on the heap of the GNU C library, and on address space that can be taken with no memory to it. Where
/// memory can't be taken so, its calls fail or nothing is refused: a test has to see both a refusal and an answer.
#[derive(Drop)]
pub struct Shortage {
    mapped: Vec<Vec<u8>>,
    // Small blocks that lie in one place. Given back first, they are the ones that the C library keeps as they are.
    small: Vec<Vec<u8>>,
    heap: Vec<Vec<u8>>,
    // Small blocks that the C library kept during the last room.
    cached: Vec<Vec<u8>>,
}

impl Shortage {
    /// Takes the address space. Nothing is short before the first room is left.
    ///
    /// # Errors
    /// The lists of what is held, of a few million bytes, or the heap that is kept were refused.
    pub fn new(alloc: Global) -> Result<Shortage, AllocError> {
        let mapping: Vec<u8> = Vec::with_capacity(alloc, MAPPING)?;
        drop(mapping);
        let mut shortage = Shortage {
            mapped: Vec::with_capacity(alloc, MOST_BLOCKS)?,
            small: Vec::with_capacity(alloc, CACHED * CACHED_SIZES)?,
            heap: Vec::with_capacity(alloc, MOST_BLOCKS)?,
            cached: Vec::with_capacity(alloc, CACHED * CACHED_SIZES)?,
        };
        let kept: Vec<u8> = Vec::with_capacity(alloc, KEPT)?;
        take_address_space(&mut shortage.mapped, alloc);
        drop(kept);
        Ok(shortage)
    }

    /// Leaves `room` bytes in one block until `relax` or the next room. The C library keeps 8 bytes of each block for
    /// itself, and rounds to multiples of 16. A room above the greatest counts as the greatest.
    ///
    /// # Errors
    /// The heap that was kept is in use, so that no such room is free. Nothing is short then.
    pub fn leave(&mut self, alloc: Global, room: usize) -> Result<(), AllocError> {
        self.relax(alloc);
        let taken = self.take_all_but(alloc, room);
        if taken.is_err() {
            self.relax(alloc);
        }
        taken
    }

    fn take_all_but(&mut self, alloc: Global, room: usize) -> Result<(), AllocError> {
        take_small(&mut self.small, alloc);
        let greatest: Vec<u8> = Vec::with_capacity(alloc, GREATEST_ROOM)?;
        take_heap(&mut self.heap, alloc);
        drop(greatest);
        let beyond = Vec::with_capacity(alloc, GREATEST_ROOM.saturating_sub(room))?;
        self.heap.push(beyond)?;
        Ok(())
    }

    /// Gives back what the last room took.
    pub fn relax(&mut self, alloc: Global) {
        take_small(&mut self.cached, alloc);
        self.small.clear();
        self.heap.clear();
        self.cached.clear();
    }
}

/// Takes blocks that are mappings, the largest first, and then what the heap could still grow by.
fn take_address_space(blocks: &mut Vec<Vec<u8>>, alloc: Global) {
    for halvings in 0..29u32 {
        take(blocks, alloc, (1 << 46) >> halvings, MOST_BLOCKS);
    }
}

/// Takes what is free in the heap, the largest blocks first, and at the end blocks of each size that the heap knows.
fn take_heap(blocks: &mut Vec<Vec<u8>>, alloc: Global) {
    for halvings in 0..8u32 {
        take(blocks, alloc, GREATEST_ROOM >> halvings, MOST_BLOCKS);
    }
    for step in 0..127usize {
        take(blocks, alloc, 2040 - 16 * step, MOST_BLOCKS);
    }
}

/// Takes what the C library keeps of small blocks, or as many others.
fn take_small(blocks: &mut Vec<Vec<u8>>, alloc: Global) {
    for step in 0..CACHED_SIZES {
        take(blocks, alloc, 24 + 16 * step, CACHED);
    }
}

/// Takes blocks of one size, in bytes, up to a number of them or until one is refused.
fn take(blocks: &mut Vec<Vec<u8>>, alloc: Global, size: usize, most: usize) {
    for _ in 0..most {
        match Vec::with_capacity(alloc, size) {
            Ok(block) => if blocks.push(block).is_err() {
                return;
            },
            Err(AllocError) => return,
        }
    }
}
