//! Scans by hand, and loads between them.
ghost use Rattle.std.specs.Prelude.{◌≡◌, true};
ghost use Rattle.plain.specs.Stages.{is_sampled};
ghost use Rattle.controller.specs.Standing.{stage_of};

use crate::charts::*;
use callers::carriages::drive;
use codefile::format::LONGEST_FILE;
use controller::controller::Controller;
use controller::scans::{Held, SampledScan};
use faults::{ControllerFault, Fault};
use image::carriage::Carriage;
use plain::calls::Answer::{Delivered, Done, Found};
use plain::calls::Call::{Deliver, Sample, Work};
use std::process::Abort;
use std::test::Fail;
use verdict::outcome::Verdict;

// The position after so many advances: to 100 and back to 0.
fn position_after(advances: u8) -> u8 {
    if advances <= 100 {
        advances
    } else {
        200u8.saturating_sub(advances)
    }
}

#[test]
fn a_carriage_to_and_fro(rt: HostRuntime) -> Result<(), Fail> {
    let mut controller = controller_of(&rt, rt.alloc(), SHUTTLE)?;
    let mut carriage = Carriage::new();
    for _ in 0..4 {
        for advances in 1..=200 {
            let answer = drive(&mut controller, &mut carriage);
            assert_eq!(rt; answer, Ok(Verdict::Stable(1)));
            assert_eq!(rt; carriage.position(), position_after(advances));
        }
    }
    Ok(())
}

// Works the open scan, and abandons it.
fn end(controller: &mut Controller, scan: SampledScan)
    requires { is_sampled (stage_of controller.old.phase) ≡ true }
{
    match controller.work(scan) {
        Ok((_, scan)) => match controller.abandon(scan) {
            Ok(()) => {}
            Err(_) => unreachable!(),
        },
        Err(_) => unreachable!(),
    }
}

// A load, and its refusal while a scan is open.
fn load_with_a_scan_open(
    rt: &impl Abort,
    controller: &mut Controller,
    carriage: &mut Carriage,
    file: &[u8],
) {
    match controller.sample(carriage) {
        Ok(scan) => {
            let refused = controller.load(file);
            assert_eq!(rt; refused, Err(Fault::Controller(ControllerFault::ScanOpen)));
            end(controller, scan);
        }
        Err(_) => assert!(rt; false),
    }
    assert_eq!(rt; controller.load(file), Ok(()));
}

#[test]
fn a_load_while_a_scan_is_open(rt: HostRuntime) -> Result<(), Fail> {
    let mut buffer = [0u8; LONGEST_FILE];
    let length = file_of(&rt, rt.alloc(), TWO_STEPS, &mut buffer)?;
    let mut controller = controller_of(&rt, rt.alloc(), SHUTTLE)?;
    let file = buffer.get(..length).unwrap_or(&[]);
    load_with_a_scan_open(&rt, &mut controller, &mut Carriage::new(), file);
    assert_eq!(rt; controller.state().active, 1);
    Ok(())
}

#[test]
fn a_load_when_halted(rt: HostRuntime) -> Result<(), Fail> {
    let mut buffer = [0u8; LONGEST_FILE];
    let length = file_of(&rt, rt.alloc(), SHUTTLE, &mut buffer)?;
    let mut controller = controller_of(&rt, rt.alloc(), TURNING)?;
    let mut carriage = Carriage::new();
    judge(
        &rt,
        &mut controller,
        &mut carriage,
        &[
            expect(Sample, Done, 1),
            expect(Work, Found(Verdict::Circling(1, 3)), 1),
            expect(Deliver, Delivered(0), 1),
            expect(Sample, HALTED, 1),
        ],
    );
    let answer = controller.load(buffer.get(..length).unwrap_or(&[]));
    assert_eq!(rt; answer, Ok(()));
    assert_eq!(rt; carriage.outputs(), 0);
    let answer = drive(&mut controller, &mut carriage);
    assert_eq!(rt; answer, Ok(Verdict::Stable(1)));
    assert_eq!(rt; carriage.outputs(), 1);
    Ok(())
}

// The scan of another controller is judged by the phase alone.
fn hand_over(
    rt: &impl Abort,
    one: &mut Controller,
    other: &mut Controller,
    carriage: &mut Carriage,
) {
    match one.sample(carriage) {
        Ok(scan) => match other.work(scan) {
            Ok((_, scan)) => match other.abandon(scan) {
                Ok(()) => assert!(rt; false),
                Err(_) => unreachable!(),
            },
            Err(Held { scan, fault }) => {
                assert_eq!(rt; fault, Fault::Controller(ControllerFault::WrongPhase));
                end(one, scan);
            }
        },
        Err(_) => assert!(rt; false),
    }
}

#[test]
fn a_scan_of_another_controller(rt: HostRuntime) -> Result<(), Fail> {
    let mut one = controller_of(&rt, rt.alloc(), SHUTTLE)?;
    let mut other = Controller::new(rt.alloc())?;
    hand_over(&rt, &mut one, &mut other, &mut Carriage::new());
    Ok(())
}
