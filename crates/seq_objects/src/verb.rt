//! The verbs of the shared objects: the table by which jobs are read, and jobs and reports are written.
ghost use Rattle.std.specs.Prelude.{◌≡◌};
ghost use Rattle.seq_objects.specs.Verbs.{kind_of_verb, row_of, takes_argument, verb_by, word_by_text, word_of_verb, word_text};

use crate::kind::Kind;

/// A word for an operation. Objects of several kinds may have operations with the same word.
#[derive(Clone, Copy, PartialEq, Eq)]
pub enum VerbWord {
    Add,
    Push,
    Pop,
    Insert,
    Remove,
    Find,
    Next,
    Take,
}

/// What an operation does, without the object that it is called on and without its argument.
#[derive(Clone, Copy, PartialEq, Eq)]
pub enum Verb {
    CounterAdd,
    Push,
    Pop,
    TreeInsert,
    TreeRemove,
    TreeFind,
    TreeNext,
    PqInsert,
    PqTake,
}

/// A row of the table of verbs.
#[derive(Clone, Copy, PartialEq, Eq)]
pub struct VerbRow {
    /// The kind of the objects that have this verb.
    pub kind: Kind,
    pub word: VerbWord,
    /// Whether an argument follows.
    pub takes_argument: bool,
    /// The place of its calls in a batch: those of a lower class take effect first.
    pub class: u32,
}

impl VerbWord {
    /// The word in jobs and reports.
    ///
    /// Memory: none.
    pub fn text(self) -> &'static str
        ensures { result.now ≡ word_text self }
    {
        match self {
            VerbWord::Add => "add",
            VerbWord::Push => "push",
            VerbWord::Pop => "pop",
            VerbWord::Insert => "insert",
            VerbWord::Remove => "remove",
            VerbWord::Find => "find",
            VerbWord::Next => "next",
            VerbWord::Take => "take",
        }
    }

    /// The word that this text is, if it is one.
    ///
    /// Memory: none.
    pub fn of_text(text: &[u8]) -> Option<VerbWord>
        ensures { result ≡ word_by_text text.now }
    {
        match text {
            b"add" => Some(VerbWord::Add),
            b"push" => Some(VerbWord::Push),
            b"pop" => Some(VerbWord::Pop),
            b"insert" => Some(VerbWord::Insert),
            b"remove" => Some(VerbWord::Remove),
            b"find" => Some(VerbWord::Find),
            b"next" => Some(VerbWord::Next),
            b"take" => Some(VerbWord::Take),
            _ => None,
        }
    }
}

impl Verb {
    /// The row of the table.
    ///
    /// Memory: none.
    pub fn row(self) -> VerbRow
        ensures { result ≡ row_of self }
    {
        let (kind, word, takes_argument, class) = match self {
            Verb::CounterAdd => (Kind::Counter, VerbWord::Add, true, 0),
            Verb::Push => (Kind::Stack, VerbWord::Push, true, 1),
            Verb::Pop => (Kind::Stack, VerbWord::Pop, false, 2),
            Verb::TreeInsert => (Kind::Tree, VerbWord::Insert, true, 4),
            Verb::TreeRemove => (Kind::Tree, VerbWord::Remove, true, 4),
            Verb::TreeFind => (Kind::Tree, VerbWord::Find, true, 3),
            Verb::TreeNext => (Kind::Tree, VerbWord::Next, true, 3),
            Verb::PqInsert => (Kind::Queue, VerbWord::Insert, true, 5),
            Verb::PqTake => (Kind::Queue, VerbWord::Take, false, 6),
        };
        VerbRow {
            kind,
            word,
            takes_argument,
            class,
        }
    }

    /// The kind of the objects that have this verb.
    ///
    /// Memory: none.
    pub fn kind(self) -> Kind
        ensures { result ≡ kind_of_verb self }
    {
        self.row().kind
    }

    /// The word in jobs and reports.
    ///
    /// Memory: none.
    pub fn word(self) -> VerbWord
        ensures { result ≡ word_of_verb self }
    {
        self.row().word
    }

    /// Whether an argument follows.
    ///
    /// Memory: none.
    pub fn takes_argument(self) -> bool
        ensures { result ≡ takes_argument self }
    {
        self.row().takes_argument
    }

    /// The verb with this word on objects of this kind, if they have it.
    ///
    /// Memory: none.
    pub fn by_word(kind: Kind, word: VerbWord) -> Option<Verb>
        ensures { result ≡ verb_by kind word }
    {
        match (kind, word) {
            (Kind::Counter, VerbWord::Add) => Some(Verb::CounterAdd),
            (Kind::Stack, VerbWord::Push) => Some(Verb::Push),
            (Kind::Stack, VerbWord::Pop) => Some(Verb::Pop),
            (Kind::Tree, VerbWord::Insert) => Some(Verb::TreeInsert),
            (Kind::Tree, VerbWord::Remove) => Some(Verb::TreeRemove),
            (Kind::Tree, VerbWord::Find) => Some(Verb::TreeFind),
            (Kind::Tree, VerbWord::Next) => Some(Verb::TreeNext),
            (Kind::Queue, VerbWord::Insert) => Some(Verb::PqInsert),
            (Kind::Queue, VerbWord::Take) => Some(Verb::PqTake),
            _ => None,
        }
    }
}
