// Runs one call from files and prints what happened; ./settle has the arguments.
#![tactic(auto)]

mod args;
mod files;
mod report;
mod said;

use args::Asked;
use calls::{CutError, Head};
use interp::answer::Answer;
use machine::host::Host;
use opening::open::Call;
use print::parts::{between, first};
use std::io;
use std::io::{LineWriter, Write};
use std::rt::{Env, Files};

// The system, and where lines and complaints go.
#[derive(Drop)]
struct Console<'a, R, W, E> {
    rt: &'a R,
    out: &'a mut W,
    err: &'a mut E,
}

// The bytes of the files that are read.
#[derive(Clone, Copy)]
struct Input<'a> {
    container: &'a [u8],
    store: &'a [u8],
    call: &'a [u8],
    loader: &'a [u8],
}

// What a call left.
#[derive(Clone, Copy)]
struct Left<'a> {
    answer: Answer,
    changes: &'a [u8],
    log: &'a [u8],
}

fn host(asked: Asked) -> Host {
    Host {
        genesis: asked.genesis,
        ml_signed: asked.ml_signed,
        slh_signed: asked.slh_signed,
    }
}

// Writes the new store to the file that an argument names.
fn save<R: Files + Env + AllocGlobal, W: Write, E: Write>(
    console: &mut Console<R, W, E>,
    file: usize,
    store: &[u8],
    left: Left,
) -> io::Result<()> {
    let mut new = [0u8; 327680];
    let count = left.answer.changes as usize;
    let Ok(n) = changes::merge::merge(left.changes, count, store, &mut new) else {
        return said::complain(console.err, b"new store", b"not written");
    };
    // So many have room.
    if n > 8192 {
        return Ok(());
    }
    if files::save(console.rt, console.err, file, first(&new, n * 40))? {
        said::count(console.out, b"new store rows", n as u64)?;
    }
    Ok(())
}

// The lines of a call's answer, and of what it left if it halted.
fn lines<W: Write>(out: &mut W, limit: u64, left: Left) -> io::Result<()> {
    let answer = left.answer;
    report::answer(out, answer, limit)?;
    if answer.end.number != 0 {
        return Ok(());
    }
    report::changes(out, left.changes, answer.changes as usize)?;
    match left.log.get(..answer.log as usize) {
        Some(log) => report::effects(out, log),
        None => Ok(()),
    }
}

// What a call left: lines, and the new store if it halted and one is asked for, also where the lines were not taken.
fn tell<R: Files + Env + AllocGlobal, W: Write, E: Write>(
    console: &mut Console<R, W, E>,
    asked: Asked,
    limit: u64,
    store: &[u8],
    left: Left,
) -> io::Result<()> {
    let told = lines(console.out, limit, left);
    match asked.out {
        Some(file) if left.answer.end.number == 0 => told.and(save(console, file, store, left)),
        _ => told,
    }
}

// With the buffers that a call is lent.
fn run<R: Files + Env + AllocGlobal, W: Write, E: Write>(
    console: &mut Console<R, W, E>,
    asked: Asked,
    head: Head,
    input: Input,
    log: &mut [u8],
) -> io::Result<()> {
    let mut changes = [0u8; 163840];
    let selector = (head.selector % 4294967296) as u32;
    let answer = interp::call::run(
        Call::for_entry(selector, head.limit, host(asked), asked.loader.is_some()),
        input.container,
        input.store,
        input.loader,
        between(input.call, calls::HEAD, head.preload),
        between(input.call, head.preload, input.call.len()),
        &mut [0; 65536],
        &mut [0; 1024],
        &mut [0; 8192],
        &mut changes,
        &mut [0; 163840],
        &mut [0; 131072],
        &mut [0; 131072],
        &mut [0; 131072],
        log,
    );
    let left = Left {
        answer,
        changes: &changes,
        log,
    };
    tell(console, asked, head.limit, input.store, left)
}

// A log of this size takes all that a run may post. It stands apart, since elsewhere the prover would count its bytes.
fn with_log<R: Files + Env + AllocGlobal, W: Write, E: Write>(
    console: &mut Console<R, W, E>,
    asked: Asked,
    head: Head,
    input: Input,
) -> io::Result<()> {
    let mut log = [0u8; 1048576];
    run(console, asked, head, input, &mut log)
}

fn settle<R: Files + Env + AllocGlobal, W: Write, E: Write>(
    console: &mut Console<R, W, E>,
    asked: Asked,
    input: Input,
) -> io::Result<()> {
    match calls::cut(input.call) {
        Ok(head) => with_log(console, asked, head, input),
        Err(CutError::Short) => said::complain(console.err, b"CALL", b"ends before its counts say"),
        Err(CutError::Long) => said::complain(console.err, b"CALL", b"has bytes after the preload"),
    }
}

fn with_files<R: Files + Env + AllocGlobal, W: Write, E: Write>(
    console: &mut Console<R, W, E>,
    asked: Asked,
) -> io::Result<()> {
    let mut container = [0u8; 262144];
    let mut store = [0u8; 163840];
    let mut call = [0u8; 114708];
    let mut loader = [0u8; 163840];
    let Some(container) = files::load(console.rt, console.err, asked.container, &mut container)?
    else {
        return Ok(());
    };
    let Some(store) = files::load(console.rt, console.err, asked.store, &mut store)? else {
        return Ok(());
    };
    let Some(call) = files::load(console.rt, console.err, asked.call, &mut call)? else {
        return Ok(());
    };
    let Some(loader) = files::load_any(console.rt, console.err, asked.loader, &mut loader)? else {
        return Ok(());
    };
    let input = Input {
        container,
        store,
        call,
        loader,
    };
    settle(console, asked, input)
}

fn main(rt: HostRuntime) -> io::Result<()> {
    let mut err = rt.stderr();
    // A whole line is written at once, so a complaint comes behind the lines before it.
    let mut out = LineWriter::new(rt.alloc(), io::writer(&rt))?;
    if let Some(asked) = args::read(&rt, &mut err)? {
        let mut console = Console {
            rt: &rt,
            out: &mut out,
            err: &mut err,
        };
        with_files(&mut console, asked)?;
    }
    out.flush()
}
