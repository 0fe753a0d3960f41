//! `dnsv_rows`: worked examples of the libraries, a row each, and what the libraries answer.
#![tactic(auto)]

mod answers;
mod chain;
mod denial;
mod evidence;
mod verdict;
mod verifier;

use dnsv_row_text::Row;
use std::io;
use std::io::{BufRead, BufReader, BufWriter, Write};

fn main(rt: HostRuntime) -> io::Result<()> {
    let alloc = rt.alloc();
    let mut output = BufWriter::new(alloc, io::writer(&rt))?;
    let mut row = Row::new(alloc);
    for line in BufReader::new(alloc, rt.reader())?.lines(alloc) {
        if let Some(text) = answers::told(&mut row, line?.as_str())? {
            writeln!(output, "{text}")?;
        }
    }
    output.flush()
}
