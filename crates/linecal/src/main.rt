// linecal: reads commands from standard input, one a line, and prints what each one answers.
#![tactic(auto)]

use commands::answer;
use sheet_commands::{answer_file, file_named};
use std::io::{BufRead, BufReader};
use std::str::from_utf8;
use std::{fs, io};

// An input or an output that fails, or want of memory, ends it with status 1; a file that a command names need not be there.
fn main(rt: HostRuntime) -> io::Result<()> {
    let heap = rt.alloc();
    let mut input = BufReader::new(heap, rt.stdin())?;
    // one buffer for all lines: `split` makes one for each
    let mut line = Vec::new(heap);
    for _ in 0..u64::MAX {
        line.clear();
        if input.read_until(b'\n', &mut line)? == 0 {
            break;
        }
        let Some(path) = file_named(&line) else {
            let text = answer(heap, &line)?;
            if !text.is_empty() {
                println!(rt; "{text}")?;
            }
            continue;
        };
        let path = from_utf8(path).unwrap_or_default();
        match fs::read(&rt, path) {
            Ok(bytes) => {
                let text = answer_file(heap, &line, &bytes)?;
                println!(rt; "{text}")?;
            }
            Err(_) => println!(rt; "cannot read the file {path}")?,
        }
    }
    Ok(())
}
