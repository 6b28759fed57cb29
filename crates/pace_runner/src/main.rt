//! Checks those printed answers of `teg` that are asked first, by the net and the text alone.
//!
//! `pace_runner NET ANSWER [LIST]` reads a net file, a file with all that `teg check`, `list`,
//! `date`, `cycle` without `--rounds`, `slack` or `size` printed of it, and for `date` what `teg list`
//! printed of at least as many firings. It prints the first line of the answer behind what is found of
//! it: `shown`, `refuted`, `not shown` or `no checker`, and of a list with a wrong line that one too.
//! That a net has a circuit without tokens it reads of each command. Of an answer of another command
//! it tells that no checker reads it: `witness_runner` does, which waits for more proofs. Further
//! questions may follow, each behind `--`; of one whose file is not read, or says no net or text, it
//! prints `not read` and the name of the answer. `-` is standard input.
//!
//! Words, texts and statuses are those of `witness_runner`: it ends with status 0 where all is shown,
//! and else with that of the gravest: 2 where words ask nothing, 5 where a file is not read, 1 where an
//! answer is refuted, 3 where one is not shown, 4 where no checker reads one; with 65 where it cannot
//! write, and 70 where no memory is found.
//!
//! It hands the words, the files and the output to [`audit_first`] of `pace_audit`, whose contract says
//! what is found, whatever printed the answer.
//!
//! It stands on `pace_audit` and `teg_outside`.
#![tactic(auto)]

use pace_audit::{AuditStatus, audit_first};
use std::alloc::{AllocError, Global};
use std::process::ExitCode;
use std::{env, io};
use teg_outside::{FileShelf, WriterSink};

// The words after the program's name; none where one of them is no text.
fn words_of(rt: &HostRuntime, alloc: Global) -> Result<Vec<String>, AllocError> {
    let mut words = Vec::new(alloc);
    match env::args(rt) {
        Ok(args) => {
            for word in args.skip(1) {
                words.push(word)?;
            }
            Ok(words)
        }
        Err(error) => {
            if error.kind() == io::ErrorKind::OutOfMemory {
                Err(AllocError)
            } else {
                Ok(words)
            }
        }
    }
}

fn main(rt: HostRuntime) -> ExitCode {
    let alloc = rt.alloc();
    let Ok(words) = words_of(&rt, alloc) else {
        return ExitCode::from(AuditStatus::NoMemory.code());
    };
    let mut shelf = FileShelf::new(&rt);
    let mut out = WriterSink::new(io::writer(&rt));
    let status = audit_first(alloc, &words, &mut shelf, &mut out);
    if status == AuditStatus::Words {
        let _told = eprintln!(rt; "usage: pace_runner NET ANSWER [LIST] [-- ..]");
    }
    ExitCode::from(status.code())
}
