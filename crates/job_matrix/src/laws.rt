//! Theorems about the definitions of this crate. Each function does nothing: its contract is the theorem.
ghost use Rattle.job_matrix.specs.BoardWorld.{AnyOrder, AllDone, TrayIsFilled};
ghost use Rattle.job_matrix.specs.Trays.{FillsInOrder};

/// Whatever the order of events, each number that was given is held by one worker, is done once with its value, or was lost once.
pub fn any_order<V>()
    ensures { AnyOrder V }
{}

/// If all numbers were given, and none is held or lost, each job is done once, with its value.
pub fn all_done<V>()
    ensures { AllDone V }
{}

/// In the case of [`all_done`] a tray into which the values are put, in any order, has them in order of the jobs.
pub fn tray_is_filled<V>()
    ensures { TrayIsFilled V }
{}

/// If each job below a number was done once, a tray into which their values are put, in any order, has them in order.
pub fn fills_in_order<V>()
    ensures { FillsInOrder V }
{}
