//! Laws of histories. Each is the contract of a function that does nothing.
ghost use Rattle.std.specs.Prelude.{List};
ghost use Rattle.acc_schedule_runs.specs.Situations.{Stopped, Situation};
ghost use Rattle.acc_schedule_runs.specs.Moves.{with_stopped};
ghost use Rattle.acc_history.specs.declared.history.History.{History};
ghost use Rattle.acc_history.specs.Stands.{StandsFor};

/// A history says nothing of the steps that faults of disks stopped.
pub fn stopped_steps_are_apart()
    ensures { (h : History) (s : Situation) (stopped : List Stopped) → StandsFor h s → StandsFor h (with_stopped stopped s) }
{}
