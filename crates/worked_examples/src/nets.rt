//! The nets of the worked examples.

/// Two transitions in a loop: a place from a to b with hold 3, and one back with hold 2 and a
/// token.
pub const LOOP: &str =
    "[[transition]]\nname = \"a\"\n\n[[transition]]\nname = \"b\"\n\n[[place]]\nname = \"ab\"\nfrom = \"a\"\nto = \"b\"\nhold = 3\n\n[[place]]\nname = \"ba\"\nfrom = \"b\"\nto = \"a\"\nhold = 2\ntokens = 1\n";

/// That loop without its token.
pub const DEAD_LOOP: &str =
    "[[transition]]\nname = \"a\"\n\n[[transition]]\nname = \"b\"\n\n[[place]]\nname = \"ab\"\nfrom = \"a\"\nto = \"b\"\nhold = 3\n\n[[place]]\nname = \"ba\"\nfrom = \"b\"\nto = \"a\"\nhold = 2\n";

/// Three machines in a line, each with a place of its own, and two cards between neighbours.
pub const KANBAN: &str =
    "[[transition]]\nname = \"m1\"\n\n[[transition]]\nname = \"m2\"\n\n[[transition]]\nname = \"m3\"\n\n[[place]]\nname = \"s1\"\nfrom = \"m1\"\nto = \"m1\"\nhold = 4\ntokens = 1\n\n[[place]]\nname = \"s2\"\nfrom = \"m2\"\nto = \"m2\"\nhold = 6\ntokens = 1\n\n[[place]]\nname = \"s3\"\nfrom = \"m3\"\nto = \"m3\"\nhold = 5\ntokens = 1\n\n[[place]]\nname = \"f12\"\nfrom = \"m1\"\nto = \"m2\"\nhold = 4\n\n[[place]]\nname = \"f23\"\nfrom = \"m2\"\nto = \"m3\"\nhold = 6\n\n[[place]]\nname = \"c21\"\nfrom = \"m2\"\nto = \"m1\"\nhold = 0\ntokens = 2\n\n[[place]]\nname = \"c32\"\nfrom = \"m3\"\nto = \"m2\"\nhold = 0\ntokens = 2\n";

/// An input u, a transition a with a place of its own, and an output y.
pub const DRIVEN: &str =
    "[[transition]]\nname = \"u\"\nrole = \"input\"\n\n[[transition]]\nname = \"a\"\n\n[[transition]]\nname = \"y\"\nrole = \"output\"\n\n[[place]]\nname = \"ua\"\nfrom = \"u\"\nto = \"a\"\nhold = 2\n\n[[place]]\nname = \"aa\"\nfrom = \"a\"\nto = \"a\"\nhold = 3\ntokens = 1\n\n[[place]]\nname = \"ay\"\nfrom = \"a\"\nto = \"y\"\nhold = 1\n";
