//! Texts that stay, in want of memory.
use kept_texts::KeptText;
use scarce::{Shortage, check};
use std::alloc::Global;
use std::test::Fail;

const SHORT: &str = "0123456789abcdefghijklmnopqrstuvwxyz";

const LONG: &str = "0123456789abcdefghijklmnopqrstuvwxyz0";

// Whether a copy of the text is refused with this room; one that isn't is the text.
fn is_copy_refused(
    alloc: Global,
    shortage: &mut Shortage,
    room: usize,
    text: &str,
) -> Result<bool, Fail> {
    shortage.leave(alloc, room)?;
    let copied = KeptText::copy_of(alloc, text);
    shortage.relax(alloc);
    match copied {
        Ok(kept) => {
            check(kept.as_str() == text, "another text")?;
            Ok(false)
        }
        Err(_) => Ok(true),
    }
}

fn meet_copies(alloc: Global, shortage: &mut Shortage) -> Result<(), Fail> {
    check(
        !is_copy_refused(alloc, shortage, 0, SHORT)?,
        "a short text takes memory",
    )?;
    check(is_copy_refused(alloc, shortage, 0, LONG)?, "never refused")?;
    check(
        !is_copy_refused(alloc, shortage, 256, LONG)?,
        "refused with room",
    )
}

#[test]
fn copies_of_texts(rt: HostRuntime) -> Result<(), Fail> {
    let alloc = rt.alloc();
    let mut shortage = Shortage::new(alloc)?;
    let met = meet_copies(alloc, &mut shortage);
    drop(shortage);
    met
}
