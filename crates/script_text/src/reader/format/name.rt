ghost use Rattle.std.specs.Prelude.{◌≡◌};
ghost use Rattle.script_text.specs.Rows.{spelling};

/// The name of a member of a line.
#[derive(Clone, Copy)]
pub(crate) enum Name {
    At,
    Batch,
    C,
    Clients,
    Consistency,
    Do,
    Doc,
    Gsi,
    High,
    Id,
    Incl,
    Index,
    Keyspace,
    Low,
    Place,
    Q,
    S,
    Spans,
    To,
    Vb,
    Vbuckets,
    Wait,
    Workers,
}

impl Name {
    /// The name as it is written.
    pub(crate) fn as_str(self) -> &'static str
        ensures { result.now ≡ spelling self }
    {
        match self {
            Name::At => "at",
            Name::Batch => "batch",
            Name::C => "c",
            Name::Clients => "clients",
            Name::Consistency => "consistency",
            Name::Do => "do",
            Name::Doc => "doc",
            Name::Gsi => "gsi",
            Name::High => "high",
            Name::Id => "id",
            Name::Incl => "incl",
            Name::Index => "index",
            Name::Keyspace => "keyspace",
            Name::Low => "low",
            Name::Place => "place",
            Name::Q => "q",
            Name::S => "s",
            Name::Spans => "spans",
            Name::To => "to",
            Name::Vb => "vb",
            Name::Vbuckets => "vbuckets",
            Name::Wait => "wait",
            Name::Workers => "workers",
        }
    }
}
