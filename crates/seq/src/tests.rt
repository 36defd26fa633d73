use super::*;
use std::test::*;

#[test]
fn lists_grow_and_are_copied(rt: HostRuntime) -> Result<(), Fail> {
    let mut list = Seq::new(rt.alloc());
    assert!(rt; list.is_empty());
    list.push(7u32)?;
    list.push(9u32)?;
    let copy = list.clone()?;
    assert_eq!(rt; copy, list);
    assert_eq!(rt; copy.len(), 2);
    assert_eq!(rt; copy.into_vec().as_slice(), [7, 9].as_slice());
    Ok(())
}

#[test]
fn words_past_five_are_kept(rt: HostRuntime) -> Result<(), Fail> {
    let words = Words::of_slice(rt.alloc(), &[1, 2, 3, 4, 5, 6])?;
    assert_eq!(rt; words.clone()?.as_slice(), [1, 2, 3, 4, 5, 6].as_slice());
    Ok(())
}
