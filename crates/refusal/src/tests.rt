use crate::{Reason, Refusal};
use std::test::Fail;

#[test]
fn a_refusal_is_told_by_its_number_and_place(rt: HostRuntime) -> Result<(), Fail> {
    let refusal = Refusal {
        reason: Reason::LinkFindsNothing,
        place: 21,
    };
    assert_eq!(rt; refusal.to_string(rt.alloc())?.as_str(), "refused 11 at 21");
    Ok(())
}
