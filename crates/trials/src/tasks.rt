//! Scan tasks, and a scan that is delivered too late.
use crate::charts::*;
use callers::cycles::glance;
use callers::ending::deliver_or_abandon;
use callers::panel::Panel;
use callers::task::{Stopped, scan_task};
use controller::controller::Controller;
use controller::phase::Phase;
use evolution::state::State;
use faults::{ControllerFault, Fault, ImageFault};
use image::Image;
use image::carriage::Carriage;
use image::frame_list::FrameList;
use std::process::Abort;
use std::test::Fail;
use verdict::outcome::Verdict;

#[test]
fn a_task_over_the_carriage(rt: HostRuntime) -> Result<(), Fail> {
    let mut controller = controller_of(&rt, rt.alloc(), SHUTTLE)?;
    let mut carriage = Carriage::new();
    assert_eq!(rt; scan_task(&mut controller, &mut carriage, 150), Ok(()));
    assert_eq!(rt; carriage.position(), 50);
    assert_eq!(rt; scan_task(&mut controller, &mut carriage, 0), Ok(()));
    assert_eq!(rt; carriage.position(), 50);
    Ok(())
}

#[test]
fn a_task_that_halts_and_is_restarted(rt: HostRuntime) -> Result<(), Fail> {
    let mut controller = controller_of(&rt, rt.alloc(), TURNING)?;
    let mut carriage = Carriage::new();
    let halts = Err(Stopped {
        scans: 1,
        fault: Fault::Controller(ControllerFault::Halted),
    });
    assert_eq!(rt; scan_task(&mut controller, &mut carriage, 5), halts);
    assert_eq!(rt; controller.restart(), Ok(()));
    assert_eq!(rt; scan_task(&mut controller, &mut carriage, 5), halts);
    assert_eq!(rt; carriage.outputs(), 0);
    Ok(())
}

#[test]
fn a_task_over_a_trace_that_ends(rt: HostRuntime) -> Result<(), Fail> {
    let mut controller = controller_of(&rt, rt.alloc(), TWO_STEPS)?;
    let ends = Err(Stopped {
        scans: 2,
        fault: Fault::Image(ImageFault::NotLive),
    });
    match FrameList::new(&[0; 16]) {
        Ok(mut list) => assert_eq!(rt; scan_task(&mut controller, &mut list, 5), ends),
        Err(_) => assert!(rt; false),
    }
    Ok(())
}

// The trace ends while the scan is open.
fn deliver_late(rt: &impl Abort, controller: &mut Controller, list: &mut FrameList) {
    match controller.sample(list) {
        Ok(scan) => match controller.work(scan) {
            Ok((_, scan)) => {
                list.advance();
                match deliver_or_abandon(controller, list, scan) {
                    Ok(answer) => assert_eq!(rt; answer, None),
                    Err(_) => unreachable!(),
                }
            }
            Err(_) => unreachable!(),
        },
        Err(_) => assert!(rt; false),
    }
}

#[test]
fn a_scan_that_is_delivered_too_late(rt: HostRuntime) -> Result<(), Fail> {
    let mut controller = controller_of(&rt, rt.alloc(), TWO_STEPS)?;
    match FrameList::new(b"\x01\0\0\0\0\0\0\0") {
        Ok(mut list) => deliver_late(&rt, &mut controller, &mut list),
        Err(_) => assert!(rt; false),
    }
    assert_eq!(rt; controller.restart(), Ok(()));
    Ok(())
}

// The state, the previous frame and the phase.
fn parts_of(controller: &Controller) -> (State, Option<u64>, Phase) {
    (
        controller.state(),
        controller.previous(),
        controller.phase(),
    )
}

#[test]
fn a_glance_that_leaves_no_trace(rt: HostRuntime) -> Result<(), Fail> {
    let mut controller = controller_of(&rt, rt.alloc(), TWO_STEPS)?;
    let mut panel = Panel::new();
    assert_eq!(rt; scan_task(&mut controller, &mut panel, 1), Ok(()));
    let before = parts_of(&controller);
    panel.set_switches(1);
    assert_eq!(rt; glance(&mut controller, &mut panel), Ok(Verdict::Stable(1)));
    assert_eq!(rt; panel.lamps(), 0);
    assert_eq!(rt; parts_of(&controller), before);
    assert_eq!(rt; before.1, Some(0));
    assert_eq!(rt; before.2, Phase::Idle);
    assert_eq!(rt; scan_task(&mut controller, &mut panel, 1), Ok(()));
    assert_eq!(rt; panel.lamps(), 3);
    Ok(())
}
