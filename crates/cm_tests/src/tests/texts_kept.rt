//! Texts that stay, at the length where they take a piece of memory.
use indexmap::IndexSet;
use kept_texts::KeptText;
use seeds::fixed_seed;
use std::process::Abort;
use std::test::Fail;

// None, one of three bytes to a scalar, 36 bytes and 37.
const TEXTS: [&str; 4] = [
    "",
    "日本語",
    "0123456789abcdefghijklmnopqrstuvwxyz",
    "0123456789abcdefghijklmnopqrstuvwxyz0",
];

#[test]
fn a_kept_text_is_the_text(rt: HostRuntime) -> Result<(), Fail> {
    let alloc = rt.alloc();
    for text in TEXTS {
        let copied = KeptText::copy_of(alloc, text)?;
        let taken = KeptText::from(String::from_str(alloc, text)?);
        assert_eq!(rt; copied.as_str(), text);
        assert_eq!(rt; taken.as_str(), text);
        assert_eq!(rt; matches!(copied, KeptText::Short(_)), text.len() <= 36);
        assert_eq!(rt; matches!(taken, KeptText::Short(_)), text.len() <= 36);
    }
    Ok(())
}

#[test]
fn kept_texts_are_found_again(rt: HostRuntime) -> Result<(), Fail> {
    let alloc = rt.alloc();
    let mut set = IndexSet::with_hasher(alloc, fixed_seed()?);
    for text in TEXTS {
        assert!(rt; !set.contains(text));
        assert!(rt; set.insert(KeptText::copy_of(alloc, text)?)?);
    }
    for text in TEXTS {
        assert!(rt; set.contains(text));
        assert!(rt; !set.insert(KeptText::copy_of(alloc, text)?)?);
    }
    Ok(())
}
