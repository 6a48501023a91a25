// The four operations as one program; its first word says which.
//
//   resolve         a description on standard input to its main table; no word at all means the same
//   translate       a description on standard input to its step list
//   main            a whole table on standard input to its main table
//   run LIST TABLE  the step list in a file over the table in another to the whole table
//
// The answer goes to standard output: the bytes, or one line `refused N at P`. What cannot be read is told on standard
// error, and then nothing goes to standard output. The exit status is always 0; `./sf` gives one.
//
// Of an input one byte more is read than any that is accepted has. An operation refuses so many bytes as it would
// refuse all of them.
// The slices lie on the stack, and so do the calls, which nest as the input does, up to 32 deep.
// 640 KiB of stack are enough, 64 of them for the words and the environment that the program is started with.
// This is measured and not proved: tools/try_commands reads the number here and runs the deepest inputs in so much.
#![tactic(auto)]

mod input;
mod output;

ghost use Rattle.std.specs.Prelude.{◌<◌, ◌^◌};

use input::{read_file, read_input};
use output::{put, refusal_line};
use refusal::Refusal;
use std::env::FillError;
use std::rt::Env;

type Answer = Result<usize, Refusal>;

// The most that an operation writes, and what its work slices are.
const LIST: usize = 53272;

const TABLE: usize = 32792;

const WORK: usize = 65536;

// The most that is read.
const SOURCE_READ: usize = 32768 + 1;

const LIST_READ: usize = LIST + 1;

const TABLE_READ: usize = TABLE + 1;

enum Command {
    Resolve,
    Translate,
    Main,
    Run,
}

impl Command {
    // From how many words there are, the program's own name among them, and the first behind it.
    fn of(words: usize, first: &[u8]) -> Option<Command> {
        match (words, first) {
            (0 | 1, _) | (2, b"resolve") => Some(Command::Resolve),
            (2, b"translate") => Some(Command::Translate),
            (2, b"main") => Some(Command::Main),
            (4, b"run") => Some(Command::Run),
            _ => None,
        }
    }
}

fn tell(rt: &HostRuntime, answer: Answer, out: &[u8]) {
    match answer {
        Ok(n) => put(rt, memory::part(out, 0, n)),
        Err(refusal) => put(rt, refusal_line(refusal).as_str().as_bytes()),
    }
}

// Tells what an operation makes of standard input, of which at most IN bytes are read, in a slice of OUT bytes.
fn over_input<const IN: usize, const OUT: usize, F>(rt: &HostRuntime, operation: F)
where
    F: FnOnce(&[u8], &mut [u8]) -> Answer,
    requires callable { F.IsAlwaysCallable operation }
    requires input_fits { IN < 2 ^ 63 }
    requires output_fits { OUT < 2 ^ 63 }
{
    let mut buf = [0u8; IN];
    let Some(input) = read_input(rt, &mut buf) else {
        return;
    };
    let mut out = [0u8; OUT];
    let answer = operation(input, &mut out);
    tell(rt, answer, &out);
}

fn resolve_input(rt: &HostRuntime) {
    over_input::<SOURCE_READ, TABLE, _>(rt, |source, out| {
        let mut work1 = [0u8; WORK];
        let mut work2 = [0u8; WORK];
        let mut work3 = [0u8; WORK];
        resolve::resolve(source, out, &mut work1, &mut work2, &mut work3)
    });
}

fn translate_input(rt: &HostRuntime) {
    over_input::<SOURCE_READ, LIST, _>(rt, |source, out| {
        translate::translate(source, out, &mut [0u8; WORK])
    });
}

fn main_input(rt: &HostRuntime) {
    over_input::<TABLE_READ, TABLE, _>(rt, |table, out| main_table::main(table, out));
}

fn run_files(rt: &HostRuntime) {
    let mut list = [0u8; LIST_READ];
    let Some(list) = read_file(rt, 2, &mut list) else {
        return;
    };
    let mut table = [0u8; TABLE_READ];
    let Some(table) = read_file(rt, 3, &mut table) else {
        return;
    };
    let mut out = [0u8; TABLE];
    let mut work1 = [0u8; WORK];
    let mut work2 = [0u8; WORK];
    let answer = run::run(list, table, &mut out, &mut work1, &mut work2);
    tell(rt, answer, &out);
}

fn usage(rt: &HostRuntime) {
    let _ = eprintln!(rt; "usage: saftmagnet [resolve] < description > table");
    let _ = eprintln!(rt; "       saftmagnet translate < description > list");
    let _ = eprintln!(rt; "       saftmagnet main < table > table");
    let _ = eprintln!(rt; "       saftmagnet run LIST TABLE > table");
}

// How many words there are, the program's own name among them; of more than four, five.
fn word_count(rt: &HostRuntime) -> usize {
    let is_there = |i: &usize| !matches!(rt.arg(*i, &mut [0u8; 1]), Err(FillError::NotPresent));
    (0..5usize).take_while(is_there).count()
}

fn main(rt: HostRuntime) {
    let mut buf = [0u8; 16];
    let first = match rt.arg(1, &mut buf) {
        Ok(n) => &buf[..n],
        Err(_) => b"",
    };
    match Command::of(word_count(&rt), first) {
        Some(Command::Resolve) => resolve_input(&rt),
        Some(Command::Translate) => translate_input(&rt),
        Some(Command::Main) => main_input(&rt),
        Some(Command::Run) => run_files(&rt),
        None => usage(&rt),
    }
}
