//! `grafcet` alone: a chart text is compiled, its code file is loaded and listed, frames are scanned, and wrong texts
//! and damaged files are refused.
use crate::compiling::print_compiled;
use crate::example::{FRAMES, TEXT, TURNS, WRONG, print_text};
use crate::failure::Failure;
use crate::showing_campaigns::{show_carriage, show_trace};
use codefile::format::LONGEST_FILE;
use codefile::program::Program;
use compile::compiler::Compiler;
use controller::controller::Controller;
use damages::damage::{Damage, try_damaged};
use faults::Fault;
use showing::listing::{print_loaded, print_program};
use showing::scans::show_scans;
use std::io;
use telling::cause::cause_of;

// Six of the damaged variants of docs/code-file.md.
const DAMAGES: [(&str, Damage); 6] = [
    ("a short file", Damage::Cut(35)),
    ("another mark", Damage::Byte(0, 0x73)),
    ("a longer clear part", Damage::Byte(16, 76)),
    ("one byte less", Damage::Cut(135)),
    ("an unlawful word", Damage::Byte(44, 1)),
    ("an unclosed bracket", Damage::Byte(59, 10)),
];

// The fault of what was tried, or that it was accepted.
fn print_answer(rt: &HostRuntime, fault: Option<Fault>) -> io::Result<()> {
    match fault {
        Some(fault) => {
            let cause = cause_of(fault);
            println!(rt; "        refused {fault}: {cause}")
        }
        None => println!(rt; "        accepted"),
    }
}

fn try_text(
    rt: &HostRuntime,
    compiler: &mut Compiler,
    buffer: &mut [u8],
    text: &str,
) -> io::Result<()> {
    println!(rt; "    {text:?}")?;
    let fault = compiler.compile(text.as_bytes(), buffer).err();
    print_answer(rt, fault.map(Fault::from))
}

fn try_texts(rt: &HostRuntime, compiler: &mut Compiler, buffer: &mut [u8]) -> io::Result<()> {
    println!(rt; "\nTexts that go wrong, compiled into the same buffer:")?;
    for text in &WRONG {
        try_text(rt, compiler, buffer, text)?;
    }
    Ok(())
}

fn try_damage(
    rt: &HostRuntime,
    program: &mut Program,
    file: &[u8],
    damage: Damage,
) -> Result<(), Failure> {
    let fault = try_damaged(rt.alloc(), program, file, damage)?;
    print_answer(rt, fault.map(Fault::from))?;
    Ok(())
}

fn try_damages(rt: &HostRuntime, program: &mut Program, file: &[u8]) -> Result<(), Failure> {
    println!(rt; "\nDamaged copies of the code file, loaded into the same program:")?;
    for &(name, damage) in &DAMAGES {
        println!(rt; "    {name}: {damage}")?;
        try_damage(rt, program, file, damage)?;
    }
    println!(rt; "\nWhat the program holds after them:")?;
    print_loaded(rt, program)?;
    Ok(())
}

fn try_turns(
    rt: &HostRuntime,
    compiler: &mut Compiler,
    buffer: &mut [u8],
    controller: &mut Controller,
) -> Result<(), Failure> {
    println!(rt; "\nA chart that never comes to rest:")?;
    print_text(rt, TURNS)?;
    let length = compiler.compile(TURNS.as_bytes(), buffer)?;
    scan_frames(rt, controller, &buffer[..length])
}

// Scans of the program of a code file.
fn scan_frames(rt: &HostRuntime, controller: &mut Controller, file: &[u8]) -> Result<(), Failure> {
    controller.load(file).map_err(Failure::Refused)?;
    show_scans(rt, controller, &FRAMES)?;
    Ok(())
}

// The program of the chart: its code file, its words, and scans of some frames.
fn show_program(
    rt: &HostRuntime,
    program: &Program,
    controller: &mut Controller,
    file: &[u8],
) -> Result<(), Failure> {
    println!(rt; "\nCompiled to a code file:")?;
    print_compiled(rt, file.len())?;
    println!(rt; "\nThe code file, loaded into a program:")?;
    print_program(rt, program)?;
    println!(rt; "\nScans of the program, each delivered:")?;
    scan_frames(rt, controller, file)
}

// The task, from the chart's text on.
fn go_through(
    rt: &HostRuntime,
    compiler: &mut Compiler,
    buffer: &mut [u8],
    program: &mut Program,
    controller: &mut Controller,
) -> Result<(), Failure> {
    let length = compiler.build(TEXT.as_bytes(), buffer, program)?;
    show_program(rt, program, controller, &buffer[..length])?;
    show_trace(rt, controller, &buffer[..length])?;
    try_damages(rt, program, &buffer[..length])?;
    try_texts(rt, compiler, buffer)?;
    try_turns(rt, compiler, buffer, controller)
}

// Makes what the task takes.
fn set_out(rt: &HostRuntime) -> Result<(), Failure> {
    let mut buffer = vec![in rt.alloc(); 0u8; LONGEST_FILE]?;
    let mut program = Program::new(rt.alloc())?;
    let mut controller = Controller::new(rt.alloc())?;
    let mut compiler = Compiler::new(rt.alloc())?;
    let outcome = go_through(
        rt,
        &mut compiler,
        &mut buffer,
        &mut program,
        &mut controller,
    );
    drop(compiler);
    outcome
}

pub fn run(rt: &HostRuntime) -> Result<(), Failure> {
    println!(rt; "The chart:")?;
    print_text(rt, TEXT)?;
    set_out(rt)?;
    show_carriage(rt)
}
