// Diagram files as the program takes them, its limits and its refusals. Assumes nothing.
use crate::run::{run_desk, run_long};
use show::group;
use std::io;
use std::io::Write;

// Runs on each of these, with 20 marks.
fn run_each<W: Write>(w: &mut W, inputs: &[&[u8]]) -> io::Result<()> {
    for input in inputs {
        run_desk(w, input, 20)?;
    }
    Ok(())
}

// The listing's file, and what comes of less room, of one byte more, and of what stands after it or is missing.
fn whole_files<W: Write>(w: &mut W) -> io::Result<()> {
    group(w, b"file: the listing, its room, and what follows it")?;
    let listing = b"options=1\ndomain=2\nnodes=1\nlayer=1\nedges=2\nto=0\nto=1\n";
    run_desk(w, listing, 110)?;
    run_desk(w, listing, 108)?;
    run_each(
        w,
        &[
            b"options=1\ndomain=2\nnodes=1\nlayer=1\nedges=2\nto=0\nto=1\n\n",
            b"options=1\ndomain=2\nnodes=1\nlayer=1\nedges=2\nto=0\nto=1\nto=1\n",
            b"options=1\ndomain=2\nnodes=1\nlayer=1\nedges=2\nto=0\nto=1",
            b"options=1\ndomain=2\nnodes=1\nlayer=1\nedges=2\nto=0\n",
        ],
    )
}

fn first_lines<W: Write>(w: &mut W) -> io::Result<()> {
    group(w, b"file: the first line")?;
    run_each(
        w,
        &[
            b"",
            b"\n",
            b"options=1",
            b"options=65",
            b"options=65\n",
            b"options=64\n",
            b"options=4294967295\n",
            b"options=4294967296\n",
            b"options=99999999999999999999999\n",
        ],
    )
}

fn misformed_lines<W: Write>(w: &mut W) -> io::Result<()> {
    group(w, b"file: lines that have not the form")?;
    run_each(
        w,
        &[
            b"options=01\n",
            b"options=\n",
            b"options=-1\n",
            b"options=+1\n",
            b"options=1 \n",
            b"options=1\r\n",
            b"options =1\n",
            b" options=1\n",
            b"Options=1\n",
            b"option=1\n",
        ],
    )
}

fn later_lines<W: Write>(w: &mut W) -> io::Result<()> {
    group(w, b"file: later lines, and their limits")?;
    run_each(
        w,
        &[
            b"nodes=1\n",
            b"options=1\n\ndomain=2\n",
            b"options=2\ndomain=2\nnodes=1\n",
            b"options=1\ndomain=4294967296\n",
            b"options=1\ndomain=2\nnodes=513\n",
            b"options=1\ndomain=2\nnodes=512\n",
            b"options=0\nnodes=0\nedges=1025\n",
            b"options=0\nnodes=0\nedges=1024\n",
        ],
    )
}

fn diagrams<W: Write>(w: &mut W) -> io::Result<()> {
    group(
        w,
        b"file: diagrams that are refused once the file is well formed",
    )?;
    run_each(
        w,
        &[
            b"options=0\nnodes=0\nedges=0\n",
            b"options=1\ndomain=4294967295\nnodes=0\nedges=0\n",
            b"options=1\ndomain=2\nnodes=0\nedges=0\n",
            b"options=1\ndomain=2\nnodes=1\nlayer=2\nedges=0\n",
            b"options=1\ndomain=2\nnodes=1\nlayer=1\nedges=1\nto=1\n",
            b"options=1\ndomain=2\nnodes=1\nlayer=1\nedges=2\nto=1\nto=2\n",
        ],
    )
}

fn sizes<W: Write>(w: &mut W) -> io::Result<()> {
    group(w, b"file: how many bytes it has")?;
    run_long(w, 32768)?;
    run_long(w, 32769)
}

pub fn run_all<W: Write>(w: &mut W) -> io::Result<()> {
    whole_files(w)?;
    first_lines(w)?;
    misformed_lines(w)?;
    later_lines(w)?;
    diagrams(w)?;
    sizes(w)
}
