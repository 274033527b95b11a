ghost use Rattle.std.specs.Prelude.{◌≡◌};
ghost use Rattle.command_words.specs.Commands.{kind_named};

/// The commands.
#[derive(Clone, Copy)]
pub(crate) enum Kind {
    Enforce,
    Explain,
    Session,
    Check,
    Format,
    Implicit,
    Report,
    Ship,
    Follow,
    Lint,
    Demo,
}

impl Kind {
    /// The command of that name.
    pub(crate) fn named(name: &str) -> Option<Kind>
        ensures { result ≡ kind_named name.now }
    {
        match name {
            "enforce" => Some(Kind::Enforce),
            "explain" => Some(Kind::Explain),
            "session" => Some(Kind::Session),
            "check" => Some(Kind::Check),
            "format" => Some(Kind::Format),
            "implicit" => Some(Kind::Implicit),
            "report" => Some(Kind::Report),
            "ship" => Some(Kind::Ship),
            "follow" => Some(Kind::Follow),
            "lint" => Some(Kind::Lint),
            "demo" => Some(Kind::Demo),
            _ => None,
        }
    }
}
