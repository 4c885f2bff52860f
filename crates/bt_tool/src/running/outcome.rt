//! How a run ended.

ghost use Rattle.std.specs.Prelude.{◌≡◌, [], IfOk, None, Ok, option_map, string_bytes, unwrap_or};
ghost use Rattle.bt_lines.specs.calls.Names.{fault_value};
ghost use Rattle.bt_tool.specs.calls.Plan.{plan_seen};
ghost use Rattle.bt_tool.specs.model.Report.{fault_text, status_of};

use crate::planning::plan_type::Plan;
use bt_lines::{Fault, Names, fault_line};
use std::alloc::{AllocError, Global};

/// How a run ended: without a fault, or with the one that it reports.
#[derive(Clone, Copy, Debug)]
pub struct Outcome {
    pub fault: Option<Fault>,
}

impl Outcome {
    /// The exit status: 0 without a fault, else 1.
    pub fn status(&self) -> u8
        ensures { result ≡ status_of (option_map fault_value self.now.fault) }
    {
        match self.fault {
            Some(_) => 1,
            None => 0,
        }
    }

    /// The line that reports the fault, if there is one, with its line feed and the names of the plan's inputs. A name that
    /// the plan lacks is empty. `Err` if memory runs out; without a fault it doesn't allocate.
    pub fn fault_line(&self, alloc: Global, plan: &Plan) -> Result<Option<Vec<u8>>, AllocError>
        ensures line { IfOk result (λ line. option_map (λ line. line.items) line
            ≡ option_map (λ fault. fault_text (plan_seen plan.now) (fault_value fault)) self.now.fault) }
        ensures none { self.now.fault ≡ None → result ≡ Ok None }
    {
        let Some(fault) = self.fault else {
            return Ok(None);
        };
        let names = Names {
            genome: name_bytes(&plan.genome),
            first: plan.first.as_bytes(),
            second: name_bytes(&plan.second),
        };
        let line = fault_line(alloc, plan.command.name().as_bytes(), &names, &fault)?;
        Ok(Some(line))
    }
}

// The bytes of a name that may be missing.
fn name_bytes(name: &Option<String>) -> &[u8]
    ensures { result.now ≡ unwrap_or (option_map string_bytes name.now) [] }
{
    match name {
        Some(name) => name.as_bytes(),
        None => b"",
    }
}
