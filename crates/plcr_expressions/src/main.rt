//! Values of DWARF expressions, one a line. A line has an architecture, the address of the code,
//! its bytes in hexadecimal digits or `-` for none, the value on the stack at the start or `-`, and
//! then registers that are known, each as the number of its place in the thread state, `=` and its
//! value. Nothing but the code is mapped. The answer is the value or the fault.
//! `bench/expressions.py` runs it.
#![tactic(auto)]

mod answer;
mod line;
#[cfg(test)]
mod tests;

use answer::answer_to;
use std::io::{self, BufRead, BufReader, BufWriter, Write};

fn main(rt: HostRuntime) -> io::Result<()> {
    let alloc = rt.alloc();
    let mut out = BufWriter::new(alloc, io::writer(&rt))?;
    for text in BufReader::new(alloc, rt.reader())?.lines(alloc) {
        let answer = answer_to(alloc, text?.as_str())?;
        writeln!(out, "{answer}")?;
    }
    out.flush()
}
