//! Charts that run, and files that no compiler wrote.
use crate::charts::*;
use crate::files::*;
use codefile::program::Program;
use evolution::state::State;
use frames::edges::Edges;
use std::alloc::Global;
use std::process::Abort;
use std::test::Fail;
use verdict::outcome::Verdict::{Circling, Overlong, Stable};
use words::codec::encode;
use words::instruction::{Instruction, Operand, Part, Target};

#[test]
fn the_two_step_chart_step_by_step(rt: HostRuntime) -> Result<(), Fail> {
    let text =
        b"step 0 initial\nstep 1\ntrans 0 from 0 to 1 when /I0\ntrans 1 from 1 to 0 when I1\nhold 1 Q0\nenter 1 set Q1";
    let program = program_of(&rt, rt.alloc(), text)?;
    judge_scans(
        &rt,
        &program,
        &[
            expect(0, Stable(1), 0, 1),
            expect(1, Stable(1), 3, 2),
            expect(1, Stable(1), 3, 2),
            expect(2, Stable(1), 2, 1),
            expect(3, Stable(2), 2, 1),
            expect(2, Stable(1), 2, 1),
            expect(1, Stable(1), 3, 2),
        ],
    )
}

#[test]
fn no_edge_without_a_previous_frame(rt: HostRuntime) -> Result<(), Fail> {
    let text =
        b"step 0 initial\nstep 1\ntrans 0 from 0 to 1 when /I0+\\I1\ntrans 1 from 1 to 0 when \\I0";
    let program = program_of(&rt, rt.alloc(), text)?;
    judge_scans(
        &rt,
        &program,
        &[
            expect(1, Stable(1), 0, 1),
            expect(2, Stable(1), 0, 1),
            expect(0, Stable(1), 0, 2),
            expect(1, Stable(1), 0, 2),
            expect(0, Stable(1), 0, 1),
        ],
    )
}

#[test]
fn circling_from_the_first_states_on(rt: HostRuntime) -> Result<(), Fail> {
    let alone = program_of(
        &rt,
        rt.alloc(),
        b"step 0 initial\ntrans 0 from 0 to 0 when 1",
    )?;
    judge_scans(&rt, &alone, &[expect(0, Circling(1, 2), 0, 1)])?;
    let turns = program_of(
        &rt,
        rt.alloc(),
        b"step 0 initial\nstep 1\ntrans 0 from 0 to 1 when 1\ntrans 1 from 1 to 0 when 1",
    )?;
    judge_scans(&rt, &turns, &[expect(0, Circling(1, 3), 0, 1)])?;
    let later = program_of(
        &rt,
        rt.alloc(),
        b"step 0 initial\nstep 1\nstep 2\ntrans 0 from 0 to 1 when I0\ntrans 1 from 1 to 2 when 1\ntrans 2 from 2 to 1 when 1",
    )?;
    judge_scans(
        &rt,
        &later,
        &[
            expect(0, Stable(1), 0, 1),
            expect(1, Circling(1, 3), 0, 1),
            expect(0, Stable(1), 0, 1),
        ],
    )
}

#[test]
fn stored_outputs_count_in_a_repetition(rt: HostRuntime) -> Result<(), Fail> {
    let text =
        b"step 0 initial\nstep 1\nstep 2\ntrans 0 from 0 to 1 when 1\ntrans 1 from 1 to 2 when 1\ntrans 2 from 2 to 1 when 1\nenter 2 set Q0";
    let program = program_of(&rt, rt.alloc(), text)?;
    judge_scans(&rt, &program, &[expect(0, Circling(2, 4), 0, 1)])?;
    let text =
        b"step 0 initial\nstep 1\ntrans 0 from 0 to 1 when !Q0\ntrans 1 from 1 to 0 when 1\nenter 1 set Q0";
    let program = program_of(&rt, rt.alloc(), text)?;
    judge_scans(&rt, &program, &[expect(0, Stable(2), 1, 1)])
}

#[test]
fn two_steps_move_on_one_rise(rt: HostRuntime) -> Result<(), Fail> {
    let text =
        b"step 0 initial\nstep 1 initial\nstep 2\ntrans 0 from 0 to 1 when /I0\ntrans 1 from 1 to 2 when /I0\nenter 1 set Q1\nenter 2 set Q2";
    let program = program_of(&rt, rt.alloc(), text)?;
    judge_scans(
        &rt,
        &program,
        &[expect(0, Stable(1), 2, 3), expect(1, Stable(1), 6, 6)],
    )
}

#[test]
fn a_chain_of_sixty_four_steps(rt: HostRuntime) -> Result<(), Fail> {
    let heap = rt.alloc();
    let text = chain(heap)?;
    let program = program_of(&rt, heap, &text)?;
    let last = 1 << 63;
    judge_scans(
        &rt,
        &program,
        &[expect(0, Stable(1), 0, 1), expect(1, Stable(64), 0, last)],
    )?;
    let text = ring(heap)?;
    let program = program_of(&rt, heap, &text)?;
    judge_scans(
        &rt,
        &program,
        &[expect(0, Stable(1), 0, 1), expect(1, Overlong, 0, 1)],
    )
}

#[test]
fn a_program_with_no_words(rt: HostRuntime) -> Result<(), Fail> {
    let program = Program::new(rt.alloc())?;
    judge_scans(
        &rt,
        &program,
        &[
            expect(0, Stable(1), 0, 0),
            expect(u64::MAX, Stable(1), 0, 0),
        ],
    )
}

// Loads a file of these parts, with step 0 as its initial step.
fn load(
    rt: &impl Abort,
    heap: Global,
    clear: &[u32],
    enter: &[u32],
    hold: &[u32],
) -> Result<Program, Fail> {
    let mut program = Program::new(heap)?;
    let file = file_of(heap, clear, enter, hold)?;
    assert_eq!(rt; fault_of(&mut program, &file), None);
    Ok(program)
}

const LD_ON: u32 = 0x0160_0000;

const LDN_Q0: u32 = 0x0230_0000;

const LD_Q0: u32 = 0x0130_0000;

const R_Q0: u32 = 0x0d30_0000;

const S_X1: u32 = 0x0c20_4000;

#[test]
fn files_that_no_compiler_wrote(rt: HostRuntime) -> Result<(), Fail> {
    let heap = rt.alloc();
    let never_empty = load(&rt, heap, &[LD_ON, ST_T0], &[], &[])?;
    judge_scans(
        &rt,
        &never_empty,
        &[
            expect(0, Circling(1, 2), 0, 1),
            expect(1, Circling(1, 2), 0, 1),
        ],
    )?;
    let discarded = load(&rt, heap, &[LD_ON, S_Q0], &[], &[])?;
    judge_scans(
        &rt,
        &discarded,
        &[expect(0, Stable(1), 0, 1), expect(1, Stable(1), 0, 1)],
    )?;
    let once = load(&rt, heap, &[LDN_Q0, ST_T0, S_Q0], &[], &[])?;
    judge_scans(&rt, &once, &[expect(0, Stable(1), 1, 1)])?;
    let back_and_forth = load(
        &rt,
        heap,
        &[LD_ON, ST_T0],
        &[LD_Q0, AND_OPEN, CLOSE, NOT, S_Q0, NOT, R_Q0],
        &[LD_X0, S_H0],
    )?;
    judge_scans(&rt, &back_and_forth, &[expect(0, Circling(1, 3), 1, 1)])?;
    let step_at_the_start = load(&rt, heap, &[], &[LD_ON, S_X1], &[])?;
    judge_scans(&rt, &step_at_the_start, &[expect(0, Stable(1), 0, 3)])
}

const A: Operand = Operand::Input(0);

const B: Operand = Operand::Input(1);

const LD_A: Instruction = Instruction::Load(A);

const LD_B: Instruction = Instruction::Load(B);

// A program whose clear part runs the instructions and leaves their result in Q0.
fn storing(rt: &impl Abort, heap: Global, instructions: &[Instruction]) -> Result<Program, Fail> {
    let mut clear = Vec::new(heap);
    for &instruction in instructions {
        let word = encode(Part::Clear, instruction);
        assert!(rt; word.is_some());
        clear.push(word.unwrap_or(0))?;
    }
    clear.extend_from_slice(&[S_Q0, LD_ON, ST_T0])?;
    load(rt, heap, &clear, &[], &[])
}

// The result of the program's clear part, from its start state.
fn result_of(program: &Program, inputs: u64, edges: Edges) -> bool {
    let after = State::start(program).evolve(program, inputs, edges);
    after.is_some_and(|s| s.stored % 2 == 1)
}

// Compares the result of the instructions where neither input is on, where input 0 is, where input 1 is, and where both
// are.
fn judge_results(
    rt: &impl Abort,
    heap: Global,
    instructions: &[Instruction],
    expected: [bool; 4],
) -> Result<(), Fail> {
    let program = storing(rt, heap, instructions)?;
    for (inputs, due) in expected.into_iter().enumerate() {
        assert_eq!(rt; result_of(&program, inputs as u64, Edges::none()), due);
    }
    Ok(())
}

// Compares an operand where step 0 is active, input 2 on and risen, and input 3 fallen.
fn judge_operand(rt: &impl Abort, heap: Global, operand: Operand, due: bool) -> Result<(), Fail> {
    let program = storing(rt, heap, &[Instruction::Load(operand)])?;
    let edges = Edges { rises: 4, falls: 8 };
    assert_eq!(rt; result_of(&program, 4, edges), due, "{}", operand);
    Ok(())
}

#[test]
fn operands_of_each_area(rt: HostRuntime) -> Result<(), Fail> {
    let heap = rt.alloc();
    judge_operand(&rt, heap, Operand::Input(2), true)?;
    judge_operand(&rt, heap, Operand::Input(3), false)?;
    judge_operand(&rt, heap, Operand::Step(0), true)?;
    judge_operand(&rt, heap, Operand::Step(2), false)?;
    judge_operand(&rt, heap, Operand::Output(0), false)?;
    judge_operand(&rt, heap, Operand::Rise(2), true)?;
    judge_operand(&rt, heap, Operand::Rise(3), false)?;
    judge_operand(&rt, heap, Operand::Fall(3), true)?;
    judge_operand(&rt, heap, Operand::Fall(2), false)?;
    judge_operand(&rt, heap, Operand::Always, true)?;
    judge_operand(&rt, heap, Operand::Cleared(0), false)?;
    judge_operand(&rt, heap, Operand::Before(0), true)?;
    judge_operand(&rt, heap, Operand::Before(2), false)
}

#[test]
fn seventeen_open_brackets(rt: HostRuntime) -> Result<(), Fail> {
    let mut deep = [Instruction::Close; 36];
    deep[0] = LD_A;
    for opening in 1..18 {
        deep[opening] = Instruction::AndOpen;
    }
    deep[18] = LD_B;
    judge_results(&rt, rt.alloc(), &deep, [false, false, false, true])
}

#[test]
fn operators_that_load_and_join(rt: HostRuntime) -> Result<(), Fail> {
    let heap = rt.alloc();
    judge_results(&rt, heap, &[LD_B], [false, false, true, true])?;
    judge_results(
        &rt,
        heap,
        &[Instruction::LoadNot(B)],
        [true, true, false, false],
    )?;
    judge_results(
        &rt,
        heap,
        &[LD_A, Instruction::And(B)],
        [false, false, false, true],
    )?;
    judge_results(
        &rt,
        heap,
        &[LD_A, Instruction::AndNot(B)],
        [false, true, false, false],
    )?;
    judge_results(
        &rt,
        heap,
        &[LD_A, Instruction::Or(B)],
        [false, true, true, true],
    )?;
    judge_results(
        &rt,
        heap,
        &[LD_A, Instruction::OrNot(B)],
        [true, true, false, true],
    )
}

#[test]
fn brackets_and_negation(rt: HostRuntime) -> Result<(), Fail> {
    let heap = rt.alloc();
    let not = Instruction::Not;
    let and = Instruction::AndOpen;
    let or = Instruction::OrOpen;
    let close = Instruction::Close;
    judge_results(&rt, heap, &[LD_A, not], [true, false, true, false])?;
    judge_results(
        &rt,
        heap,
        &[LD_A, and, LD_B, close],
        [false, false, false, true],
    )?;
    judge_results(
        &rt,
        heap,
        &[LD_A, or, LD_B, close],
        [false, true, true, true],
    )?;
    judge_results(
        &rt,
        heap,
        &[LD_A, and, LD_B, or, LD_A, not, close, not, close],
        [false, true, false, false],
    )
}

#[test]
fn operators_that_write(rt: HostRuntime) -> Result<(), Fail> {
    let heap = rt.alloc();
    let set = Instruction::Set(Target::Output(1));
    let reset = Instruction::Reset(Target::Output(1));
    let stored = Instruction::Load(Operand::Output(1));
    let store = Instruction::Store(5);
    let cleared = Instruction::Load(Operand::Cleared(5));
    judge_results(&rt, heap, &[LD_A, set, stored], [false, true, false, true])?;
    judge_results(
        &rt,
        heap,
        &[LD_A, set, LD_B, reset, stored],
        [false, true, false, false],
    )?;
    judge_results(
        &rt,
        heap,
        &[LD_A, store, LD_B, store, cleared],
        [false, false, true, true],
    )
}
