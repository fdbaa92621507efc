//! Numbers that are dealt to an owner and two thieves.
use crate::dealer::deal;
use std::test::*;

#[test]
fn two_thieves_and_the_owner_take_each_number_once(rt: HostRuntime) -> Result<(), Fail> {
    let mut dealer = deal(rt.alloc(), 3)?;
    let mut one = dealer.thief()?;
    let mut two = dealer.thief()?;
    let first = one.take(&rt);
    let second = two.take(&rt);
    dealer.end(two);
    dealer.end(one);
    let third = dealer.take();
    let none = dealer.take();
    assert_eq!(rt;
        (first, second, third, none),
        (Some(0), Some(1), Some(2), None)
    );
    Ok(())
}
