//! Each command once, with an answer that was worked out by hand, and a call of each other kind.
use crate::bench::{Case, is_answered};
use crate::nets::{DEAD_LOOP, DRIVEN, KANBAN, LOOP};
use std::test::Fail;
use teg_run::{Status, make_trial};

// The commands of a net, of a second file and of no file, and calls that are refused.
const COMMANDS: [Case<'static>; 23] = [
    (
        &["check", "net"],
        LOOP,
        "",
        Status::Done,
        "live\ntransitions 2\nplaces 2\n",
    ),
    (
        &["list", "net", "3"],
        LOOP,
        "",
        Status::Done,
        "dates of 3 firings\ntransition a b\n1 0 3\n2 5 8\n3 10 13\n",
    ),
    (
        &["form", "net"],
        LOOP,
        "",
        Status::Done,
        "form stars 1 entries 2\nstar b a 3\nentry a b 1 2\nentry b b 1 5\n",
    ),
    (
        &["cycle", "net", "--rounds"],
        LOOP,
        "",
        Status::Done,
        "cycle time 5/1\ncircuit ab ba\npart 1 ratio 5/1\ncircuit ab ba\npotential a 0\npotential b 3\npart 1 round 1 ratio 5/1\ncircuit ab ba\nchoice a ba 0\nchoice b ab 3\n",
    ),
    (
        &["cycle", "net"],
        KANBAN,
        "",
        Status::Done,
        "cycle time 6/1\ncircuit s2\npart 1 ratio 6/1\ncircuit s2\npotential m1 -12\npotential m2 0\npotential m3 6\n",
    ),
    (
        &["dates", "net"],
        KANBAN,
        "",
        Status::Done,
        "settled after 4 period 1\ntransition m1 0 4 8 12 16 step 6\ntransition m2 4 10 16 22 28 step 6\ntransition m3 10 16 22 28 34 step 6\n",
    ),
    (
        &["date", "net", "a", "1000000000000000000", "--limit", "none"],
        LOOP,
        "",
        Status::Done,
        "date a 1000000000000000000 4999999999999999995\n",
    ),
    (
        &["slack", "net"],
        DRIVEN,
        "",
        Status::Done,
        "cycle time 3/1\nplace ua no circuit\nplace aa critical\nplace ay no circuit\n",
    ),
    (
        &["transfer", "net"],
        DRIVEN,
        "",
        Status::Done,
        "transfer of 1 inputs to 1 outputs\nfrom u settled after 0 period 1\nto y 3 step 3\n",
    ),
    (
        &["size", "net", "ba", "3/1"],
        LOOP,
        "",
        Status::Done,
        "size ba 3/1 extra 1\ncircuit ab ba\n",
    ),
    (
        &["bound", "net"],
        KANBAN,
        "",
        Status::Done,
        "bound 437\nsettled after 4 period 1\n",
    ),
    (
        &["migrate", "net"],
        "[[transition]]\nname = \"a\"\n",
        "",
        Status::Done,
        "version = 2\n\n[[transition]]\nname = \"a\"\nrole = \"internal\"\n",
    ),
    (
        &["jit", "net", "second"],
        DRIVEN,
        "y,1,10\ny,2,11\n",
        Status::Done,
        "latest inputs for 2 firings\ninput u 1 5 by ua\ninput u 2 8 by ua\nlatest a 1 7 by aa\nlatest a 2 10 by ay\nlatest y 1 10 due\nlatest y 2 11 due\n",
    ),
    (
        &["jit", "net", "second"],
        DRIVEN,
        "y,1,2\n",
        Status::Late,
        "late y 1 due 2 least 3\npath u 1 by ua a 1 by ay y 1\n",
    ),
    (
        &["replay", "net", "second"],
        LOOP,
        "a,7\nb,10\nb,11\n",
        Status::Log,
        "refused: log row 3 illegal place ab\n",
    ),
    (
        &["forever", "net", "second"],
        DRIVEN,
        "y,2,8,10,11\n",
        Status::Done,
        "latest inputs forever\ninput u 5 8 period 2 step 8\n",
    ),
    (
        &["timetable", "net", "6", "second"],
        LOOP,
        "a,0\nb,3\na,1,2\n",
        Status::Done,
        "settled after 2 period 1\nrecovered after 2\ndelays a 2 1 0\ndelays b 2 1 0\n",
    ),
    (
        &["calc", "star(g1d2)+g0d5"],
        "",
        "",
        Status::Done,
        "series 5 5 5 6 period 1 step 2\n",
    ),
    (
        &["trial", "400"],
        "",
        "",
        Status::Done,
        "trial 400\nplaces 1198\ncycle time 32/1\ncritical 17\nlast 40349\n",
    ),
    (
        &["check", "net"],
        DEAD_LOOP,
        "",
        Status::Net,
        "refused: token-free circuit ab ba\n",
    ),
    (
        &["check", "net"],
        "[[transition]]\nname = \"a",
        "",
        Status::Text,
        "refused: not TOML\n",
    ),
    (
        &["date", "net", "c", "1"],
        LOOP,
        "",
        Status::Name,
        "refused: no transition c\n",
    ),
    (
        &["calc", "g1d"],
        "",
        "",
        Status::Calc,
        "refused: syntax at 3\n",
    ),
];

#[test]
fn each_command_is_answered(rt: HostRuntime) -> Result<(), Fail> {
    for case in &COMMANDS {
        let (_, _, _, _, text) = *case;
        assert!(rt; is_answered(rt.alloc(), case, 0)?, "{text}");
    }
    assert!(rt; Status::Done.code() == 0 && Status::Calc.code() == 9);
    assert!(rt; make_trial(rt.alloc(), 3)?.transition_count() == 3);
    Ok(())
}
