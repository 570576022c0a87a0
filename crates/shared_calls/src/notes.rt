//! What one caller has seen is told to another.
ghost use Rattle.std.specs.Prelude.{◌≡◌, false};
ghost use Rattle.shared_calls.specs.Callers.{HasHeard};
ghost use Rattle.shared_calls.specs.Views.{IsCallerOf, IsNoteOf, number_of, made, seen, is_lost, told};

use crate::combined::Combined;
use crate::rule::{Hear, Hearing, Telling};
use crate::shared::{Caller, Note, Shared};

impl<T: Combined> Shared<T> {
    /// A note of the calls that the caller has seen.
    ///
    /// Memory: none.
    pub fn tell(&self, caller: &mut Caller<T>) -> Note<T>
        requires caller { IsCallerOf self.now caller.old }
        ensures own { IsCallerOf self.now caller.new × (number_of caller.new ≡ number_of caller.old) }
        ensures same { (made caller.new ≡ made caller.old) × (seen caller.new ≡ seen caller.old) × (is_lost caller.new ≡ is_lost caller.old) }
        ensures note { IsNoteOf self.now result × (told result ≡ seen caller.old) }
    {
        let seat = self.table.shared.split_seat::<Telling>(&mut caller.seat);
        Note { seat }
    }

    /// The caller has seen the calls of the note too.
    ///
    /// Memory: none.
    pub fn hear(&self, caller: &mut Caller<T>, note: Note<T>)
        requires caller { IsCallerOf self.now caller.old }
        requires sound { is_lost caller.old ≡ false }
        requires note { IsNoteOf self.now note }
        ensures own { IsCallerOf self.now caller.new × (number_of caller.new ≡ number_of caller.old) }
        ensures same { (made caller.new ≡ made caller.old) × (is_lost caller.new ≡ false) }
        ensures heard { HasHeard T.object (number_of caller.old) (seen caller.old) (told note) (seen caller.new) }
    {
        let seat = note.into_seat();
        let shared = &self.table.shared;
        shared.join_seat::<Hearing>(&mut caller.seat, seat);
        shared.load::<Hear<T>>(&mut caller.seat, caller.number);
    }
}
