//! The lines of refusals, as a program prints them.
use dioid_matrix::MatrixRefused;
use example_nets::says;
use scheduler_loop::Scheduler;
use std::alloc::Global;
use teg_check::LiveNet;
use teg_due::{DueRefusal, LogRefusal};
use teg_reader::read_net;

// A circuit that has no token.
const NO_TOKEN: &[u8] =
    b"transition = [{name = 'a'}]\nplace = [{name = 'p', from = 'a', to = 'a', hold = 1}]\n";

#[test]
fn refusals_have_lines(rt: HostRuntime) {
    let alloc = rt.alloc();
    let file = read_net(alloc, b"transition = [{name = 'a', hold = 1}]\n");
    assert!(rt; says(alloc, file, "transition 1 unknown key \"hold\""));
    let due = Err::<u8, DueRefusal>(DueRefusal::UnknownTransition { row: 1 });
    assert!(rt; says(alloc, due, "due row 1 unknown transition"));
    let log = Err::<u8, LogRefusal>(LogRefusal::BadRow { row: 1 });
    assert!(rt; says(alloc, log, "log row 1 is not a firing"));
    let line = "token-free circuit of places 0";
    assert!(rt; says(alloc, Scheduler::new(alloc, NO_TOKEN), line));
    let count = Err::<u8, MatrixRefused>(MatrixRefused::Count {
        wanted: 4,
        given: 3,
    });
    assert!(rt; says(alloc, count, "3 entries where 4 are wanted"));
    let shape = Err::<u8, MatrixRefused>(MatrixRefused::Shape {
        left_columns: 2,
        right_rows: 1,
    });
    assert!(rt; says(alloc, shape, "2 and 1 do not go together"));
    let range = Err::<u8, MatrixRefused>(MatrixRefused::Range {
        step: 1,
        row: 0,
        column: 2,
    });
    assert!(rt; says(alloc, range, "step 1 at row 0 and column 2 is out of range"));
}

// How many places the file has.
fn places_of(alloc: Global, file: &[u8]) -> anyhow::Result<usize> {
    let net = read_net(alloc, file)?;
    let held = LiveNet::new(alloc, net)?;
    Ok(held.net().places().len())
}

#[test]
fn refusals_pass_up(rt: HostRuntime) {
    let Err(error) = places_of(rt.alloc(), NO_TOKEN) else {
        panic!(rt; "the net is not live");
    };
    assert!(rt;
        says(
            rt.alloc(),
            Err::<u8, anyhow::Error>(error),
            "token-free circuit of places 0"
        )
    );
}
