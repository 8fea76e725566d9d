//! Registers in memory that keep a list of what was done to them.
ghost use Rattle.std.specs.Prelude.{◌≡◌, ◌<◌, ◌≤◌, ◌↔◌, [], ◌∷◌, Some, IsTrue, IsNone, IsErr, IsErrOf, IfOk, IsSomeAnd};
ghost use Rattle.std.specs.Option.{option_copied};
ghost use Rattle.outside.specs.Told.{Grows};
ghost use Rattle.outside.specs.Schedule.{first_schedule, fails_next, schedule_after};
ghost use Rattle.reg_file.specs.declared.traits.Call.{Call};
ghost use Rattle.reg_file.specs.Log.{first_log, told_calls, log_after, log_shaped};

use crate::OutOfMemory;
use crate::call_log::CallLog;
use crate::ram::RamFile;
use crate::traits::{Call, DeviceFault, RegFile, ShapeFail};
use outside::FaultSchedule;
use stateful_ops::Op;
use std::alloc::Global;

/// Registers in memory that tell their `rmw` calls, and fail where they are told to.
#[derive(Debug, Drop)]
pub struct TraceFile {
    file: RamFile,
    log: CallLog,
    schedule: FaultSchedule,
}

impl TraceFile {
    ghost use Rattle.reg_file.specs.Registers.{AreZero};
    ghost use Rattle.reg_file.specs.TraceFile.{log_of, schedule_of};

    /// A file with no arrays. It tells its calls of `rmw` until more than `room` of them came, and
    /// takes the memory for them at once. Of the calls of `shape`, `read` and `fill`, counted
    /// together from 1, those in `failing` fail.
    pub fn new(alloc: Global, room: usize, failing: Vec<u64>) -> Result<TraceFile, OutOfMemory>
        ensures faults { IfOk result (λ file. ⟦<TraceFile as RegFile>⟧.faults file ≡ 0) }
        ensures arrays { IfOk result (λ file. (⟦<TraceFile as RegFile>⟧.dims file).arrays ≡ 0) }
        ensures contents { IfOk result (λ file.
            IsSomeAnd (⟦<TraceFile as RegFile>⟧.contents file) AreZero) }
        ensures calls { IfOk result (λ file. ⟦<TraceFile as RegFile>⟧.calls file ≡ Some []) }
        ensures log { IfOk result (λ file. log_of file ≡ first_log room) }
        ensures schedule { IfOk result (λ file. schedule_of file ≡ first_schedule failing.items) }
    {
        Ok(TraceFile {
            file: RamFile::new(),
            log: CallLog::new(alloc, room)?,
            schedule: FaultSchedule::new(failing),
        })
    }

    /// The calls of `rmw` since the file was shaped.
    pub fn calls(&self) -> Option<&[Call]>
        ensures told { option_copied result ≡ ⟦<TraceFile as RegFile>⟧.calls self.now }

        // More calls came since the file was made than it has room for.
        ensures none { IsNone result ↔ ((log_of self.now).room < (log_of self.now).made) }
    {
        self.log.calls()
    }
}

impl RegFile for TraceFile {
    ghost use Rattle.reg_file.specs.Registers.{IsShape, shaped_dims, InFile, InRange, AreZero, MakesCall, MakesFill};
    ghost use Rattle.reg_file.specs.TraceFile.{trace_dims, trace_contents, log_of, schedule_of};

    ghost faults = { λ file. (schedule_of file).faults };

    ghost dims = { trace_dims };

    ghost contents = { λ file. Some (trace_contents file) };

    ghost calls = { λ file. told_calls (log_of file) };

    fn shape(&mut self, alloc: Global, arrays: u32, bits: u32) -> Result<(), ShapeFail>
        requires { IsShape arrays bits }
        ensures later { (schedule_of self.old).faults ≤ (schedule_of self.new).faults }
        ensures dims { trace_dims self.new ≡ shaped_dims arrays bits result }
        ensures contents { AreZero (trace_contents self.new) }
        ensures log { log_of self.new ≡ log_shaped (log_of self.old) }
        ensures schedule { schedule_of self.new ≡ schedule_after (fails_next (schedule_of self.old)) (schedule_of self.old) }
        ensures fails { IsErrOf result ShapeFail.Device
            ↔ IsTrue (fails_next (schedule_of self.old)) }
    {
        self.log.clear();
        if self.schedule.next_fails(false) {
            self.file = RamFile::without_arrays(bits);
            return Err(ShapeFail::Device);
        }
        self.file.shape(alloc, arrays, bits)
    }

    fn rmw(&mut self, array: u32, addr: u32, op: Op) -> u32
        requires { InFile (trace_dims self.old) array addr }
        ensures dims { trace_dims self.new ≡ trace_dims self.old }
        ensures contents { MakesCall array addr op result
            (trace_contents self.old) (trace_contents self.new) }
        ensures calls { let call : Call = record { array = array; addr = addr; op = op } in
            Grows (told_calls (log_of self.old)) (call ∷ []) (told_calls (log_of self.new)) }
        ensures log { let call : Call = record { array = array; addr = addr; op = op } in
            log_of self.new ≡ log_after (log_of self.old) call }
        ensures schedule { schedule_of self.new ≡ schedule_of self.old }
    {
        self.log.note(Call { array, addr, op });
        self.file.rmw(array, addr, op)
    }

    fn read(&mut self, array: u32, addr: u32) -> Result<u32, DeviceFault>
        requires { InFile (trace_dims self.old) array addr }
        ensures later { (schedule_of self.old).faults ≤ (schedule_of self.new).faults }
        ensures dims { trace_dims self.new ≡ trace_dims self.old }
        ensures contents { trace_contents self.new ≡ trace_contents self.old }
        ensures value { IfOk result (λ value. value ≡ trace_contents self.new array addr) }
        ensures log { log_of self.new ≡ log_of self.old }
        ensures schedule { schedule_of self.new ≡ schedule_after (fails_next (schedule_of self.old)) (schedule_of self.old) }
        ensures fails { IsErr result ↔ IsTrue (fails_next (schedule_of self.old)) }
    {
        if self.schedule.next_fails(false) {
            return Err(DeviceFault);
        }
        self.file.read(array, addr)
    }

    fn fill(&mut self, array: u32, base: u32, len: u32, value: u32) -> Result<(), DeviceFault>
        requires { InRange (trace_dims self.old) array base len }
        ensures later { (schedule_of self.old).faults ≤ (schedule_of self.new).faults }
        ensures dims { trace_dims self.new ≡ trace_dims self.old }
        ensures contents { MakesFill array base len value result
            (trace_contents self.old) (trace_contents self.new) }
        ensures log { log_of self.new ≡ log_of self.old }
        ensures schedule { schedule_of self.new ≡ schedule_after (fails_next (schedule_of self.old)) (schedule_of self.old) }
        ensures fails { IsErr result ↔ IsTrue (fails_next (schedule_of self.old)) }
    {
        if self.schedule.next_fails(false) {
            return Err(DeviceFault);
        }
        self.file.fill(array, base, len, value)
    }
}
