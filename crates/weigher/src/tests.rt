// Examples of what the kinds do.
use crate::{Cell, Order, Ramp, Sealed, Told, View, Weigher};
use std::process::Abort;
use std::test::Fail;

// The order waits in every tend but the last of its patience, in which it is late.
fn is_late_on_its_last_tend<W: Weigher>(rt: &impl Abort, weigher: &mut W, patience: u8) {
    assert_eq!(rt; (W::longest(), W::PATIENCE), (patience, patience));
    assert!(rt; weigher.begin(Order::Settle).is_ok());
    for _ in 1..patience {
        assert_eq!(rt; weigher.tend(), Told::Waiting);
    }
    assert_eq!(rt; weigher.tend(), Told::Late);
    assert_eq!(rt; weigher.tend(), Told::Idle);
}

#[test]
fn ramp_is_patient_for_50_tends(rt: HostRuntime) -> Result<(), Fail> {
    is_late_on_its_last_tend(&rt, &mut Ramp::new(0, 1, 1000)?, 50);
    Ok(())
}

#[test]
fn cell_is_patient_for_200_tends(rt: HostRuntime) -> Result<(), Fail> {
    is_late_on_its_last_tend(&rt, &mut Cell::new(Vec::new(rt.alloc()), 15_000, 5)?, 200);
    Ok(())
}

#[test]
fn sealed_ramp_is_patient_for_50_tends(rt: HostRuntime) -> Result<(), Fail> {
    is_late_on_its_last_tend(&rt, &mut Sealed::new(Ramp::new(0, 1, 1000)?), 50);
    Ok(())
}

// What zero now tells on a ramp that stays at this load.
fn told_of_zero(load: i32) -> Result<Told, Fail> {
    let mut ramp = Ramp::new(load, 1, load)?;
    ramp.begin(Order::ZeroNow)?;
    Ok(ramp.tend())
}

#[test]
fn zero_reaches_a_fiftieth_of_the_capacity(rt: HostRuntime) -> Result<(), Fail> {
    assert_eq!(rt; told_of_zero(300)?, Told::Done);
    assert_eq!(rt; told_of_zero(301)?, Told::NotPossible);
    assert_eq!(rt; told_of_zero(-300)?, Told::Done);
    assert_eq!(rt; told_of_zero(-301)?, Told::NotPossible);
    Ok(())
}

// The load after each of two tends, and whether the ramp is still after the second.
fn two_steps(start: i32, step: i32, target: i32) -> Result<(i32, i32, bool), Fail> {
    let mut ramp = Ramp::new(start, step, target)?;
    let _ = ramp.tend();
    let first = ramp.look().load;
    let _ = ramp.tend();
    let view = ramp.look();
    Ok((first, view.load, view.still))
}

#[test]
fn ramp_ends_on_its_target(rt: HostRuntime) -> Result<(), Fail> {
    assert_eq!(rt; two_steps(0, 10, 20)?, (10, 20, false), "exactly on it");
    assert_eq!(rt; two_steps(0, 10, 13)?, (10, 13, false), "would pass it");
    assert_eq!(rt; two_steps(0, 10, -13)?, (-10, -13, false), "downwards");
    assert_eq!(rt; two_steps(3, 10, 13)?, (13, 13, true), "arrived");
    Ok(())
}

fn view_after(cell: &mut Cell, tends: u8) -> View {
    for _ in 0..tends {
        let _ = cell.tend();
    }
    cell.look()
}

#[test]
fn cell_leaves_and_reenters_its_range(rt: HostRuntime) -> Result<(), Fail> {
    let mut samples = [100; 17];
    samples[8] = 4_000_001;
    let mut cell = Cell::new(samples.to_vec(rt.alloc())?, 15_000, 0)?;
    let view = view_after(&mut cell, 8);
    assert_eq!(rt;
        (view.load, view.still, view.fault),
        (100, true, false),
        "eight good samples"
    );
    let view = view_after(&mut cell, 1);
    assert_eq!(rt;
        (view.load, view.still, view.fault),
        (100, false, true),
        "out of range"
    );
    let view = view_after(&mut cell, 7);
    assert_eq!(rt;
        (view.load, view.still, view.fault),
        (100, false, false),
        "seven good again"
    );
    assert!(rt; view_after(&mut cell, 1).still, "eight good again");
    Ok(())
}

#[test]
fn fault_holds_an_immediate_order_up(rt: HostRuntime) -> Result<(), Fail> {
    let samples = [4_000_001, -4_000_001, 120];
    let mut cell = Cell::new(samples.to_vec(rt.alloc())?, 15_000, 0)?;
    cell.begin(Order::TareNow)?;
    assert_eq!(rt; cell.tend(), Told::Waiting);
    assert_eq!(rt; cell.tend(), Told::Waiting);
    assert_eq!(rt; cell.tend(), Told::Done);
    assert_eq!(rt; cell.look().tare, 120);
    Ok(())
}
