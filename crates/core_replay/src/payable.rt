// The flows that are still to be paid, by pay day.
ghost use Rattle.std.specs.Prelude.{◌≡◌, ℕ, ◌<◌, ◌++◌, ◌∷◌, [], Some, length, replicate, slice_set, IfOk};
ghost use Rattle.core_sums.specs.Places.{row_at};
ghost use Rattle.core_replay.specs.Steps.{with_flows};

use std::alloc::{AllocError, Global};
use std::marker::Model;

/// By pay day the flows that are paid then, in the order in which they came.
#[derive(Drop)]
pub(crate) struct PayableFlows {
    by_day: Vec<Vec<i128>>,
}

impl Model for PayableFlows {
    ghost use Rattle.std.specs.Prelude.{List, ℤ, map};

    ghost Value = { List (List ℤ) };

    ghost view = { λ payable. map (λ flows. flows.items) payable.by_day.items };
}

impl PayableFlows {
    /// No flow on any of so many days.
    pub(crate) fn none(alloc: Global, days: usize) -> Result<PayableFlows, AllocError>
        ensures { IfOk result (λ payable. payable ≡ replicate days []) }
    {
        let mut by_day = Vec::with_capacity(alloc, days)?;
        for _ in 0..days {
            by_day.push(Vec::new(alloc))?;
        }
        Ok(PayableFlows { by_day })
    }

    /// Puts a flow behind those of its pay day.
    fn put(&mut self, day: u8, flow: i128) -> Result<(), AllocError>
        requires { day < length self.old }
        ensures { IfOk result
            (λ _. self.new ≡ slice_set self.old day (row_at self.old day ++ (flow ∷ []))) }
    {
        self.by_day[day as usize].push(flow)?;
        Ok(())
    }

    /// Puts a flow behind those of its pay day, if it has one.
    pub(crate) fn add(&mut self, day: Option<u8>, flow: i128) -> Result<(), AllocError>
        requires { (w : ℕ) → day ≡ Some w → w < length self.old }
        ensures { IfOk result (λ _. self.new ≡ with_flows self.old day (flow ∷ [])) }
    {
        match day {
            Some(day) => self.put(day, flow),
            None => Ok(()),
        }
    }

    /// The flows that are paid on a day.
    pub(crate) fn on(&self, day: u8) -> &[i128]
        requires { day < length self.now }
        ensures { result.now ≡ row_at self.now day }
    {
        &self.by_day[day as usize]
    }
}
