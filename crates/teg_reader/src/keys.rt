//! The keys of a net file.
ghost use Rattle.std.specs.Prelude.{◌≡◌};
ghost use Rattle.teg_reader.specs.Keys.{key_text};

/// A key of a net file.
#[derive(Clone, Copy, Debug, PartialEq, Eq)]
pub enum Key {
    Version,
    Transition,
    Place,
    Input,
    Name,
    Role,
    Duration,
    From,
    To,
    Hold,
    Tokens,
    Ready,
    Dates,
    Every,
    Gap,
}

impl Key {
    /// The key as it is written in the file. It takes no memory.
    #[tactic(auto, unfolding(crate::specs::Keys::key_text))]
    pub fn text(self) -> &'static str
        ensures { result.now ≡ key_text self }
    {
        match self {
            Key::Version => "version",
            Key::Transition => "transition",
            Key::Place => "place",
            Key::Input => "input",
            Key::Name => "name",
            Key::Role => "role",
            Key::Duration => "duration",
            Key::From => "from",
            Key::To => "to",
            Key::Hold => "hold",
            Key::Tokens => "tokens",
            Key::Ready => "ready",
            Key::Dates => "dates",
            Key::Every => "every",
            Key::Gap => "gap",
        }
    }
}
