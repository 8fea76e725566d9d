//! Which calls fail.
ghost use Rattle.std.specs.Prelude.{◌≡◌, ◌||◌, ◌≤◌, true};
ghost use Rattle.outside.specs.Faults.{Rose};
ghost use Rattle.outside.specs.Schedule.{Schedule, first_schedule, fails_next, schedule_after};

use std::marker::Model;

/// The numbers of the calls that fail, counted from 1, the calls made and the faults.
///
/// Both counts stand still at their last value.
#[derive(Debug, Drop)]
pub struct FaultSchedule {
    failing: Vec<u64>,
    made: u64,
    faults: u64,
}

impl Model for FaultSchedule {
    ghost Value = { Schedule };

    ghost view = { λ s. record { failing = s.failing.items; made = s.made; faults = s.faults } };
}

impl FaultSchedule {
    pub fn new(failing: Vec<u64>) -> FaultSchedule
        ensures { result ≡ first_schedule failing.items }
    {
        FaultSchedule {
            failing,
            made: 0,
            faults: 0,
        }
    }

    /// Counts a call, and says whether it fails: by its number, or because it is `refused`.
    pub fn next_fails(&mut self, refused: bool) -> bool
        ensures fails { result ≡ (fails_next self.old || refused) }
        ensures after { self.new ≡ schedule_after result self.old }
        ensures later { self.old.faults ≤ self.new.faults }
        ensures rose { result ≡ true → Rose self.old.faults self.new.faults }
    {
        self.made = self.made.saturating_add(1);
        let fails = self.failing.contains(&self.made) || refused;
        if fails {
            self.faults = self.faults.saturating_add(1);
        }
        fails
    }
}
