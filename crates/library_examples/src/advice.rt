//! The advice of a small crate on the library.
use pace_example::advise;

const NET: &str =
    "transition = [{ name = \"u\", role = \"input\" }, { name = \"a\" }, { name = \"y\" }]
place = [
 { name = \"ua\", from = \"u\", to = \"a\", hold = 2 },
 { name = \"aa\", from = \"a\", to = \"a\", hold = 3, tokens = 1 },
 { name = \"ay\", from = \"a\", to = \"y\", hold = 1 },
]
";

#[test]
fn a_net_is_advised(rt: HostRuntime) {
    let Ok(advice) = advise(rt.alloc(), NET.as_bytes(), b"y,1,10\ny,2,11\n") else {
        panic!(rt; "memory is found");
    };
    assert!(rt; advice.pace.as_str() == "pace 3/1");
    assert!(rt; advice.plan.numbers() == 2);
}
