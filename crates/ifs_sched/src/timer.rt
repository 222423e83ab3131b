//! The timer of one test: its period and its status.

ghost use Rattle.std.specs.Prelude.{◌≡◌, IfSome, is_some};
ghost use Rattle.ifs_sched.specs.declared.timer.Status.TheVariants.{Idle};
ghost use Rattle.ifs_sched.specs.Timer.{ended, entered_status, is_running_status, is_run, started};

/// The status of a test. Moments and run numbers are those of its schedule.
#[derive(Clone, Copy, Debug, Default)]
pub enum Status {
    /// Not active.
    #[default]
    Off,
    /// Waits, and is due from a moment on.
    Idle { due: u64 },
    /// Runs under a number, and is due again from a moment on.
    Running { run: u64, due: u64 },
}

/// A test's period in seconds, and its status.
#[derive(Clone, Copy, Debug, Default)]
pub struct Timer {
    pub period: u32,
    pub status: Status,
}

impl Timer {
    /// Makes the entry of a state at a moment, for a test of the always set, of the state's own set, or of neither.
    pub fn enter(&mut self, always: bool, own: bool, now: u64)
        ensures { self.new
            ≡ record self.old { status = entered_status always own now self.old.status } }
    {
        self.status = match (always, own, self.status) {
            (true, _, Status::Off) | (false, true, _) => Status::Idle { due: now },
            (true, _, status) => status,
            (false, false, _) => Status::Off,
        };
    }

    /// Starts the test at a moment, under a run number.
    pub fn start(&mut self, now: u64, run: u64)
        ensures { self.new ≡ started now run self.old }
    {
        let due = now.saturating_add(u64::from(self.period));
        self.status = Status::Running { run, due };
    }

    /// Whether the test runs.
    pub fn is_running(&self) -> bool
        ensures { result ≡ is_running_status self.now.status }
    {
        matches!(self.status, Status::Running { .. })
    }

    /// Whether the test runs under this number.
    pub fn runs_under(&self, number: u64) -> bool
        ensures { result ≡ is_run number self.now.status }
    {
        matches!(self.status, Status::Running { run, .. } if run == number)
    }

    /// Ends the test's run if it runs under this number. It is then idle, and due from the returned moment on.
    pub fn finish(&mut self, number: u64) -> Option<u64>
        ensures value { is_some result ≡ is_run number self.old.status }
        ensures after { self.new ≡ ended number self.old }
        ensures due { IfSome result (λ due. self.new.status ≡ Idle due) }
    {
        match self.status {
            Status::Running { run, due } if run == number => {
                self.status = Status::Idle { due };
                Some(due)
            }
            _ => None,
        }
    }
}
