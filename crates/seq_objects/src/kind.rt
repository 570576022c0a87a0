//! The kinds of shared objects.
ghost use Rattle.std.specs.Prelude.{◌≡◌};
ghost use Rattle.seq_objects.specs.Verbs.{kind_text, kind_by_text};

/// A kind of shared objects.
#[derive(Clone, Copy, PartialEq, Eq, Hash)]
pub enum Kind {
    /// A number, to which others are added.
    Counter,
    /// Items, of which the last that came is the first to go.
    Stack,
    /// A set of keys.
    Tree,
    /// A priority queue: items, of which the least is the first to go.
    Queue,
}

impl Kind {
    /// The word of the kind in jobs and reports.
    ///
    /// Memory: none.
    pub fn text(self) -> &'static str
        ensures { result.now ≡ kind_text self }
    {
        match self {
            Kind::Counter => "counter",
            Kind::Stack => "stack",
            Kind::Tree => "tree",
            Kind::Queue => "queue",
        }
    }

    /// The kind whose word this text is, if it is one's.
    ///
    /// Memory: none.
    pub fn of_text(text: &[u8]) -> Option<Kind>
        ensures { result ≡ kind_by_text text.now }
    {
        match text {
            b"counter" => Some(Kind::Counter),
            b"stack" => Some(Kind::Stack),
            b"tree" => Some(Kind::Tree),
            b"queue" => Some(Kind::Queue),
            _ => None,
        }
    }
}
