//! Checks printed answers of `teg` by the net and the text alone.
//!
//! `witness_runner NET ANSWER [DUE | LIST | PERIOD TIMETABLE]` reads a net file, a file with all
//! that `teg check`, `list`, `cycle`, `dates`, `date`, `slack`, `size`, `bound`, `jit`, `forever` or
//! `timetable` printed of it, for `jit` and `forever` the due file, for `date` what `teg list` printed
//! of at least as many firings, and for `timetable` its period and its file. It prints the first line
//! of the answer, of a bound and of releases without end each line, of a table of latest dates each
//! line that tells a date, of delays that are kept that line and the circuit, and of delays that die
//! out the line that says so, each behind what is found of it: `shown`, `refuted`, `not shown` or `no checker`. Of a list or a table with a wrong line
//! it prints the first line and the first that is wrong, of rounds of which one is another the first line and
//! that with which this one begins, of a table that does not go up to the greatest
//! number that is due the first line alone. Further questions may follow, each behind `--`; of one
//! whose file is not read, or says no net, text or rows, it prints `not read` and the name of the
//! answer. `-` is standard input.
//!
//! It ends with status 0 where all is shown, and else with that of the gravest: 2 where words ask
//! nothing, 5 where a file is not read, 1 where an answer is refuted, 3 where one is not shown, 4
//! where no checker reads one; with 65 where it cannot write, and 70 where no memory is found.
//!
//! It hands the words, the files and the output to [`audit`] of `answer_audit`, whose contract says
//! what is found, whatever printed the answer: whether the net is live is asked before all else; of
//! `check` is shown what the text tells; of `list`, all its dates; of `date`, the date; of `cycle`,
//! the pace of the net and the greatest ratios of its parts, or that it has no circuit; of `slack`,
//! each slack; of `size`, that the number is the least that is enough; of `bound`, its number, and from
//! when on dates repeat, or why there is none; of `dates`, that its form is the settled form; of latest dates, that the table is a plan, with a step that attains each date;
//! of releases without end, that they are the latest inputs that meet what is due; of `late`, that
//! its row is the first that comes late, and when; of `kept`, that the circuit keeps
//! delays, and of `recovered`, the least number after which none is left, both with the number, the
//! period and all lines of delays. Of the other lines it tells nothing.
//!
//! It stands on `answer_audit` and `teg_outside`.
#![tactic(auto)]

use answer_audit::{AuditStatus, audit};
use std::alloc::{AllocError, Global};
use std::process::ExitCode;
use std::{env, io};
use teg_outside::{FileShelf, WriterSink};

// The words after the program's name; none where one of them is no text.
fn words_of(rt: &HostRuntime, alloc: Global) -> Result<Vec<String>, AllocError> {
    let mut words = Vec::new(alloc);
    match env::args(rt) {
        Ok(args) => {
            for word in args.skip(1) {
                words.push(word)?;
            }
            Ok(words)
        }
        Err(error) => {
            if error.kind() == io::ErrorKind::OutOfMemory {
                Err(AllocError)
            } else {
                Ok(words)
            }
        }
    }
}

fn main(rt: HostRuntime) -> ExitCode {
    let alloc = rt.alloc();
    let Ok(words) = words_of(&rt, alloc) else {
        return ExitCode::from(AuditStatus::NoMemory.code());
    };
    let mut shelf = FileShelf::new(&rt);
    let mut out = WriterSink::new(io::writer(&rt));
    let status = audit(alloc, &words, &mut shelf, &mut out);
    if status == AuditStatus::Words {
        let usage = "usage: witness_runner NET ANSWER [DUE | LIST | PERIOD TIMETABLE] [-- ..]";
        let _told = eprintln!(rt; "{usage}");
    }
    ExitCode::from(status.code())
}
