//! What is true of runs. Each is the contract of an empty function.
ghost use Rattle.flymon_engine.specs.Laws.{EndsAsTheScript, CountsAlone, AnswersAlone, FlightIsSerial};
ghost use Rattle.flymon_engine.specs.Schedules.{KeepsSerialOrder};

/// Where nothing fails a run ends as the whole script does, at its damage or without; a fault
/// leaves a front of its text.
pub fn ends_as_the_script()
    ensures { EndsAsTheScript }
{}

/// What a task has counted is what it counts alone.
pub fn counts_alone()
    ensures { CountsAlone }
{}

/// What a task answers is what it answers alone: on two switches of one hash key, wherever it
/// stands and whatever stands beside it.
pub fn answers_alone()
    ensures { AnswersAlone }
{}

/// Whatever the order in which packets enter and pass groups while tasks change: on each array the
/// operations come in the order of the serial run, and once nobody is in flight all is as there.
pub fn serial_order()
    ensures { KeepsSerialOrder }
{}

/// A run with packets in flight writes what one writes whose packets pass one after another, and
/// makes the same operations on each array.
pub fn flight_is_serial()
    ensures { FlightIsSerial }
{}
