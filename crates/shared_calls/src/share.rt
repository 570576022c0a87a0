//! Sharing a structure.
ghost use Rattle.std.specs.Prelude.{◌≡◌, ℕ, ◌+◌, ◌<◌, ◌≤◌, [], ◌∷◌, ◌++◌, replicate, slice_set, false, vec_len, slice_get, IfOk, IfSome};
ghost use Rattle.shared_calls.specs.declared.view.Slot.TheVariants.{Vacant, Whole as WholeOf};
ghost use Rattle.shared_calls.specs.Callers.{idle_view};
ghost use Rattle.shared_calls.specs.Views.{AreNewCallers, number_of_callers};
ghost use Rattle.shared_calls.specs.Serial.{SerialObject};
ghost use Rattle.shared_calls.specs.Rule.{newcomers};
ghost use Rattle.limits.specs.declared.TheConstants.{MOST_WORKERS};

use crate::combined::Combined;
use crate::rule::{CallRule, Enroll, FirstCaller};
use crate::shared::{Caller, Shared};
use crate::view::{Slot, View};
use atomic_table::{Refused, Seat, Table};
use std::alloc::{AllocError, Global};

/// Vacant slots for these callers, and the structure.
fn opening_slots<T: Combined>(
    alloc: Global,
    structure: T,
    callers: usize,
) -> Result<Vec<Slot<T, T::Op, T::Reply>>, AllocError>
    requires few { callers ≤ MOST_WORKERS }
    ensures { IfOk result (λ slots. (rs : _) × (slots.items ≡ replicate callers Vacant ++ WholeOf structure rs ∷ [])) }
{
    let mut slots = Vec::with_capacity(alloc, callers + 1)?;
    for _ in 0..callers {
        slots.push(Slot::Vacant)?;
    }
    slots.push(Slot::Whole(structure, Vec::new(alloc)))?;
    Ok(slots)
}

/// The words of these callers, all away, and of the free flag.
fn opening_words(alloc: Global, callers: usize) -> Result<Vec<u64>, AllocError>
    requires few { callers ≤ MOST_WORKERS }
    ensures { IfOk result (λ words. words.items ≡ slice_set (replicate (callers + 1) 3) callers 0) }
{
    let mut words = Vec::from_elem(alloc, 3u64, callers + 1)?;
    words[callers] = 0;
    Ok(words)
}

impl<T: Combined> Shared<T> {
    /// The caller of this number, whose seat has just been split off.
    fn enroll(
        &self,
        mut seat: Seat<Slot<T, T::Op, T::Reply>, View<T::Op, T::Reply>>,
        number: usize,
    ) -> Caller<T>
        requires table { seat.table_id ≡ self.now.table.shared.table_id }
        requires new { (seat.me ≡ (newcomers number (number + 1) 1, [])) × (number < self.now.callers) }
        ensures table { result.seat.table_id ≡ self.now.table.shared.table_id }
        ensures idle { (result.number ≡ number) × (result.lost ≡ false) × (result.seat.me ≡ (idle_view number ([] ∷ []) [], (number, Vacant) ∷ [])) }
    {
        self.table.shared.store::<Enroll>(&mut seat, number, 0);
        Caller {
            seat,
            number,
            lost: false,
        }
    }

    /// All callers, split off from the first seat one after another.
    fn callers_of(
        &self,
        seat: &mut Seat<Slot<T, T::Op, T::Reply>, View<T::Op, T::Reply>>,
    ) -> Result<Vec<Caller<T>>, AllocError>
        requires table { seat.old.table_id ≡ self.now.table.shared.table_id }
        requires new { seat.old.me ≡ (newcomers 0 self.now.callers self.now.callers, []) }
        ensures { IfOk result (λ all. AreNewCallers self.now.callers self.now all.items) }
    {
        let mut all = Vec::with_capacity(self.alloc, self.callers)?;
        for number in 0..self.callers {
            let own = self.table.shared.split_seat::<FirstCaller>(seat);
            all.push_reserved(self.enroll(own, number));
        }
        Ok(all)
    }

    /// Shares a structure among this many callers.
    ///
    /// Memory: proportional to the callers.
    pub fn share(
        alloc: Global,
        structure: T,
        callers: usize,
    ) -> Result<(Shared<T>, Vec<Caller<T>>), AllocError>
        requires count { (1 ≤ callers) × (callers ≤ MOST_WORKERS) }
        requires opening { T.content structure ≡ SerialObject.opening T.object }
        ensures all { IfOk result (λ r. number_of_callers r.0 ≡ callers) }
        ensures callers { IfOk result (λ r. AreNewCallers callers r.0 r.1.items) }
    {
        let words = opening_words(alloc, callers)?;
        let slots = opening_slots(alloc, structure, callers)?;
        let (table, mut seat) = match Table::new(alloc, &words, slots, &(callers as u64)) {
            Ok(made) => made,
            Err(Refused { slots: _ }) => return Err(AllocError),
        };
        let shared = Shared {
            table,
            callers,
            alloc,
        };
        let all = shared.callers_of(&mut seat)?;
        Ok((shared, all))
    }
}
