//! The program: it hands the words, the files and the output to the workbench, and ends with the
//! status of that call. It stands on `teg_run` and `teg_outside`.
#![tactic(auto)]

use std::alloc::{AllocError, Global};
use std::process::ExitCode;
use std::{env, io};
use teg_outside::{FileShelf, WriterSink};
use teg_run::{Status, run_watched};

// The words after the program's name; none where one of them is no text.
fn words_of(rt: &HostRuntime, alloc: Global) -> Result<Vec<String>, AllocError> {
    let mut words = Vec::new(alloc);
    match env::args(rt) {
        Ok(args) => {
            for word in args.skip(1) {
                words.push(word)?;
            }
            Ok(words)
        }
        Err(error) => {
            if error.kind() == io::ErrorKind::OutOfMemory {
                Err(AllocError)
            } else {
                Ok(words)
            }
        }
    }
}

fn main(rt: HostRuntime) -> ExitCode {
    let alloc = rt.alloc();
    let Ok(words) = words_of(&rt, alloc) else {
        return ExitCode::from(Status::NoMemory.code());
    };
    let mut shelf = FileShelf::new(&rt);
    let mut out = WriterSink::new(io::writer(&rt));
    run_watched(alloc, &words, &mut shelf, &mut out)
}
