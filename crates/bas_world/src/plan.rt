ghost use Rattle.std.specs.Prelude.{◌≡◌, ◌==◌, ◌+◌};
ghost use Rattle.std.specs.List.{list_any};
ghost use Rattle.bas_world.specs.Count.{CountMoves};
ghost use Rattle.bas_world.specs.Plan.{plan_of, fails_next, after_call};

use std::marker::Model;

// The numbers of the calls that are to fail, and how many calls and faults there were.
#[derive(Debug, Drop)]
pub struct CallPlan {
    listed: Vec<u64>,
    calls: u64,
    faults: u64,
}

impl Model for CallPlan {
    ghost use Rattle.bas_world.specs.Plan.{Plan, plan_code};

    ghost Value = { Plan };

    ghost coded = { plan_code };

    ghost view = { λ p. record { fails = p.listed.items; calls = p.calls; faults = p.faults } };
}

impl CallPlan {
    pub fn new(fails: Vec<u64>) -> CallPlan
        ensures { result ≡ plan_of fails.items }
    {
        CallPlan {
            listed: fails,
            calls: 0,
            faults: 0,
        }
    }

    // Counts one call, and tells whether it fails.
    pub fn begin_call(&mut self) -> bool
        ensures failed { result ≡ fails_next self.old }
        ensures counted { self.new ≡ after_call self.old }
        ensures moves { CountMoves result self.old.faults self.new.faults }
    {
        let failed = lists_next(&self.listed, self.calls);
        self.calls = self.calls.saturating_add(1);
        if failed {
            self.faults = self.faults.saturating_add(1);
        }
        failed
    }

    pub fn calls(&self) -> u64
        ensures { result ≡ self.now.calls }
    {
        self.calls
    }
}

// Whether the call after so many is among the listed ones.
fn lists_next(listed: &[u64], calls: u64) -> bool
    ensures { result ≡ list_any (λ number. number == calls + 1) listed.now }
{
    match calls.checked_add(1) {
        Some(number) => listed.contains(&number),
        None => false,
    }
}
