//! The list of calls that a file tells.
ghost use Rattle.std.specs.Prelude.{◌≡◌, ◌≤◌, [], ◌∷◌, IfOk, vec_len, vec_capacity};
ghost use Rattle.std.specs.Option.{option_copied};
ghost use Rattle.outside.specs.Told.{Grows};
ghost use Rattle.reg_file.specs.Log.{Log, first_log, told_calls, log_after, log_shaped};

use crate::traits::Call;
use std::alloc::{AllocError, Global};
use std::marker::Model;

/// The calls since the last shape, told while at most `room` were made at all. The counter stands
/// still at its last value, which no room in memory comes near.
#[derive(Debug, Drop)]
pub(crate) struct CallLog {
    list: Vec<Call>,
    room: usize,
    made: usize,
}

impl Model for CallLog {
    ghost Value = { Log };

    ghost view = { λ log. record { room = log.room; made = log.made; list = log.list.items } };

    ghost invariant = { λ log. (vec_len log.list ≤ log.made) × (log.room ≤ vec_capacity log.list) };
}

impl CallLog {
    /// Takes the memory for `room` calls.
    pub(crate) fn new(alloc: Global, room: usize) -> Result<CallLog, AllocError>
        ensures { IfOk result (λ log. log ≡ first_log room) }
    {
        Ok(CallLog {
            list: Vec::with_capacity(alloc, room)?,
            room,
            made: 0,
        })
    }

    pub(crate) fn note(&mut self, call: Call)
        ensures after { self.new ≡ log_after self.old call }
        ensures grows { Grows (told_calls self.old) (call ∷ []) (told_calls self.new) }
    {
        if self.made < self.room {
            let Ok(()) = self.list.push(call) else {
                unreachable!()
            };
        }
        self.made = self.made.saturating_add(1);
    }

    /// Empties the list. The calls in it still count.
    pub(crate) fn clear(&mut self)
        ensures { self.new ≡ log_shaped self.old }
    {
        self.list.clear();
    }

    pub(crate) fn calls(&self) -> Option<&[Call]>
        ensures { option_copied result ≡ told_calls self.now }
    {
        (self.made <= self.room).then_some(self.list.as_slice())
    }
}
