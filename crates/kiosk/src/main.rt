// The kiosk's desk: it reads a script line by line, from the file that is named or from standard input, and answers
// each line.
#![tactic(auto)]

mod answer;
mod checking;
mod desk;
mod kept;
mod session;
mod state;
mod told;

use kept::Session;
use std::fs::File;
use std::io::{BufRead, BufReader};
use std::{env, io};
use stores::board::{Board, CELLS};
use told::Told;

// A line is split off as bytes, so that one that is not text is answered like any other that can't be read.
fn serve_lines<R: io::Read + Drop>(
    rt: &HostRuntime,
    script: R,
    session: &mut Session<'_>,
) -> io::Result<()> {
    let heap = rt.alloc();
    for line in BufReader::new(heap, script)?.split(heap, b'\n') {
        let line = line?;
        let answer = session.answer_line(heap, line.as_slice())?;
        match answer {
            Some(Ok(reply)) => rt.println(Told { session, reply })?,
            Some(Err(refusal)) => rt.println(refusal)?,
            None => (),
        }
    }
    Ok(())
}

// The session lies here, outside the loop, so that it is dropped once and whole, and not part by part on each way out of it.
fn serve<R: io::Read + Drop>(rt: &HostRuntime, script: R, board: Board<'_>) -> io::Result<()> {
    let mut session = Session::new(board);
    let served = serve_lines(rt, script, &mut session);
    drop(session);
    served
}

// The board's memory is on the heap, since a function pays for the size of what lies in it.
fn run(rt: &HostRuntime) -> io::Result<()> {
    let mut memory = vec![in rt.alloc(); 0; CELLS]?;
    let board = match Board::new(memory.as_mut_slice()) {
        Ok(board) => board,
        // The memory is a board's.
        Err(_) => unreachable!(),
    };
    match env::args(rt)?.nth(1) {
        Some(path) => serve(rt, File::open(rt, path)?, board),
        None => serve(rt, rt.stdin(), board),
    }
}

fn main(rt: HostRuntime) -> io::Result<()> {
    run(&rt)
}
