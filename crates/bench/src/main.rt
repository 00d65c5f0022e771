// The counter's tool: audits, finds, reads, loads and moves, or does what the reset pin does, on files that the
// arguments name.
#![tactic(auto)]

mod arguments;
mod asked;
mod bases;
mod calls;
mod files;
mod listing;
mod numbers;
mod programs;
mod reset;
mod rooms;
mod saying;
mod sentences;
mod status;
mod usage;
mod volumes;

use console::rooms::{IMAGE, room};
use console::streams::{arg_count, argument};
use loader::table::TABLE_ROOM;
use rooms::{Board, MEMORY};
use status::Outcome;
use std::process::ExitCode;

#[derive(Clone, Copy)]
enum Verb {
    Audit,
    Find,
    Read,
    Load,
    Move,
    Reset,
    Help,
    Version,
}

// The verb that a text is.
fn verb_of(text: &[u8]) -> Option<Verb> {
    Some(match text {
        b"audit" => Verb::Audit,
        b"find" => Verb::Find,
        b"read" => Verb::Read,
        b"load" => Verb::Load,
        b"move" => Verb::Move,
        b"reset" => Verb::Reset,
        b"--help" | b"-h" => Verb::Help,
        b"--version" => Verb::Version,
        _ => return None,
    })
}

// Does what the verb says with so many arguments. The rooms are made once, and lent to each: for an image, for a file,
// which is no longer than the largest image, and for a program.
fn act(rt: &HostRuntime, verb: Verb, count: usize) -> Outcome {
    let mut image: [u8; IMAGE] = room(0);
    let mut file: [u8; IMAGE] = room(0);
    let mut memory: [u8; MEMORY] = room(0);
    let mut work: [u8; MEMORY] = room(0);
    let mut table: [u32; TABLE_ROOM] = room(0);
    let mut board = Board {
        memory: &mut memory,
        table: &mut table,
        work: &mut work,
    };
    match verb {
        Verb::Audit => volumes::audit_images(rt, asked::of_image(rt, count)?, &mut image),
        Verb::Find => volumes::find_paths(rt, asked::of_image(rt, count)?, &mut image),
        Verb::Read => { volumes::read_file(rt, asked::of_image(rt, count)?, &mut image, &mut file) }
        Verb::Load => programs::load(rt, asked::plainly(count), &mut file, &mut board),
        Verb::Move => programs::move_program(rt, asked::plainly(count), &mut file, &mut board),
        Verb::Reset => reset::reset(
            rt,
            asked::of_image(rt, count)?,
            &mut image,
            &mut file,
            &mut board,
        ),
        Verb::Help => {
            usage::say(rt);
            Ok(())
        }
        Verb::Version => {
            usage::version(rt);
            Ok(())
        }
    }
}

// The same for the verb that argument 1 is, if there is one and all arguments fit.
fn run(rt: &HostRuntime, count: usize) -> Outcome {
    if count < 2 {
        usage::say(rt);
        return Ok(());
    }
    arguments::all_fit(rt, count)?;
    let mut text: [u8; arguments::LONGEST] = room(0);
    let text = argument(rt, 1, &mut text);
    match verb_of(text) {
        Some(verb) => act(rt, verb, count),
        None => Err(saying::wrong(rt, text, " is no verb; ./bench alone says how it is used")),
    }
}

fn main(rt: HostRuntime) -> ExitCode {
    match run(&rt, arg_count(&rt)) {
        Ok(()) => ExitCode::SUCCESS,
        Err(failure) => ExitCode::from(failure),
    }
}
