use std::test::Fail;
use trial_round::trial;

// F-1 owes F-2 330.47, and F-2 owes F-1 242.17: these are one more than the third and the sixth draw.
#[test]
fn two_claims_are_set_off(rt: HostRuntime) -> Result<(), Fail> {
    let text = trial(&rt, rt.alloc(), 2, 2, 1)?;
    let line = b"trial firms 2 claims 2 seed 1 cut 2 parties 2 total 484.34 yes\n";
    assert!(rt; text.as_slice() == line.as_slice());
    Ok(())
}

// The total is that of another program.
#[test]
fn four_thousand_claims_are_set_off(rt: HostRuntime) -> Result<(), Fail> {
    let text = trial(&rt, rt.alloc(), 400, 4_000, 7)?;
    assert!(rt; text.as_slice().ends_with(b" total 1009347.43 yes\n"));
    Ok(())
}
