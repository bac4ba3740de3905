//! Campaigns.
use crate::charts::*;
use controller::controller::Controller;
use image::carriage::Carriage;
use image::frame_list::FrameList;
use plain::calls::Answer::{Delivered, Done, Found};
use plain::calls::Call::{Abandon, Advance, Deliver, Restart, Sample, Work};
use std::test::Fail;
use verdict::outcome::Verdict::Circling;

// The frames 0, 1, 0; and one frame alone.
const OFF_AND_ON: &[u8] = b"\0\0\0\0\0\0\0\0\x01\0\0\0\0\0\0\0\0\0\0\0\0\0\0\0";

const OFF: &[u8] = b"\0\0\0\0\0\0\0\0";

const ON: &[u8] = b"\x01\0\0\0\0\0\0\0";

#[test]
fn a_trace_that_ends_while_a_scan_is_open(rt: HostRuntime) -> Result<(), Fail> {
    let mut controller = controller_of(&rt, rt.alloc(), TWO_STEPS)?;
    let mut list = FrameList::new(OFF)?;
    judge(
        &rt,
        &mut controller,
        &mut list,
        &[
            expect(Sample, Done, 1),
            expect(Work, STABLE, 1),
            expect(Advance, Done, 1),
            expect(Deliver, NOT_LIVE, 1),
            expect(Deliver, NOT_LIVE, 1),
            expect(Abandon, Done, 1),
            expect(Sample, NOT_LIVE, 1),
            expect(Restart, Done, 1),
        ],
    );
    Ok(())
}

#[test]
fn all_off_until_a_restarted_controller_delivers(rt: HostRuntime) -> Result<(), Fail> {
    let mut controller = controller_of(&rt, rt.alloc(), TURNING)?;
    let mut list = FrameList::new(OFF_AND_ON)?;
    judge(
        &rt,
        &mut controller,
        &mut list,
        &[
            expect(Sample, Done, 1),
            expect(Work, STABLE, 1),
            expect(Deliver, Delivered(4), 1),
            expect(Advance, Done, 1),
            expect(Sample, Done, 1),
            expect(Work, Found(Circling(1, 3)), 1),
            expect(Deliver, Delivered(0), 1),
            expect(Sample, HALTED, 1),
            expect(Work, WRONG_PHASE, 1),
            expect(Advance, Done, 1),
            expect(Restart, Done, 1),
            expect(Sample, Done, 1),
            expect(Work, STABLE, 1),
            expect(Deliver, Delivered(4), 1),
        ],
    );
    Ok(())
}

#[test]
fn each_call_out_of_turn(rt: HostRuntime) -> Result<(), Fail> {
    let mut controller = controller_of(&rt, rt.alloc(), TWO_STEPS)?;
    judge(
        &rt,
        &mut controller,
        &mut Carriage::new(),
        &[
            expect(Work, WRONG_PHASE, 1),
            expect(Deliver, WRONG_PHASE, 1),
            expect(Abandon, WRONG_PHASE, 1),
            expect(Sample, Done, 1),
            expect(Sample, SCAN_OPEN, 1),
            expect(Deliver, WRONG_PHASE, 1),
            expect(Abandon, WRONG_PHASE, 1),
            expect(Restart, SCAN_OPEN, 1),
            expect(Work, STABLE, 1),
            expect(Sample, SCAN_OPEN, 1),
            expect(Work, WRONG_PHASE, 1),
            expect(Restart, SCAN_OPEN, 1),
            expect(Abandon, Done, 1),
        ],
    );
    Ok(())
}

#[test]
fn the_phase_goes_before_the_image(rt: HostRuntime) -> Result<(), Fail> {
    let mut controller = controller_of(&rt, rt.alloc(), TURNING)?;
    let mut list = FrameList::new(ON)?;
    judge(
        &rt,
        &mut controller,
        &mut list,
        &[
            expect(Sample, Done, 1),
            expect(Advance, Done, 1),
            expect(Sample, SCAN_OPEN, 1),
            expect(Deliver, WRONG_PHASE, 1),
            expect(Work, Found(Circling(1, 3)), 1),
            expect(Deliver, NOT_LIVE, 1),
            expect(Abandon, Done, 1),
        ],
    );
    let mut again = FrameList::new(ON)?;
    judge(
        &rt,
        &mut controller,
        &mut again,
        &[
            expect(Sample, Done, 1),
            expect(Work, Found(Circling(1, 3)), 1),
            expect(Deliver, Delivered(0), 1),
            expect(Advance, Done, 1),
            expect(Sample, HALTED, 1),
            expect(Deliver, WRONG_PHASE, 1),
        ],
    );
    Ok(())
}

#[test]
fn a_controller_that_was_never_loaded(rt: HostRuntime) -> Result<(), Fail> {
    let mut controller = Controller::new(rt.alloc())?;
    judge(
        &rt,
        &mut controller,
        &mut Carriage::new(),
        &[
            expect(Sample, Done, 0),
            expect(Work, STABLE, 0),
            expect(Deliver, Delivered(0), 0),
            expect(Restart, Done, 0),
            expect(Sample, Done, 0),
            expect(Work, STABLE, 0),
            expect(Abandon, Done, 0),
        ],
    );
    Ok(())
}
