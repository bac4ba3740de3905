//! A list takes as many items as it has room for.
use room::{Full, Reserved};
use std::test::Fail;

#[test]
fn a_list_takes_three_items_and_no_fourth(rt: HostRuntime) -> Result<(), Fail> {
    let mut list = Reserved::<u8, 3>::new(rt.alloc())?;
    assert_eq!(rt; list.push(1), Ok(()));
    assert_eq!(rt; list.push(2), Ok(()));
    assert_eq!(rt; list.push(3), Ok(()));
    assert_eq!(rt; list.push(4), Err(Full));
    assert_eq!(rt; list.as_slice(), [1, 2, 3].as_slice());
    list.clear();
    assert!(rt; list.as_slice().is_empty());
    assert_eq!(rt; list.push(5), Ok(()));
    assert_eq!(rt; list.as_slice(), [5].as_slice());
    Ok(())
}
