// From records to a plan.
ghost use Rattle.std.specs.Prelude.{IfOk};
ghost use Rattle.shunt_rows.specs.defs.Checks.{answer};
ghost use Rattle.shunt_rows.specs.defs.Formats.{reading};
ghost use Rattle.shunt_rows.specs.defs.Given.{Gives};
ghost use Rattle.shunt_plan.specs.defs.PlanFormat.{PlanDraft, more_of, cost_of, plan_format};
ghost use Rattle.shunt_plan.specs.defs.Plans.{IsPlanInRange};

use crate::block_records::{read_first, read_more};
use crate::records::Plan;
use shunt_blocks::Block;
use shunt_instance::Instance;
use shunt_lists::Items;
use shunt_rows::{FormatReader, ReadError, Row, RowKind, fields_in, must, number_in, read};
use std::alloc::Global;
use std::marker::Model;

// What the records so far state.
#[derive(Debug, Drop)]
struct PlanDraft {
    blocks: Vec<Block>,
    cost: Option<u64>,
}

impl Model for PlanDraft {
    ghost use Rattle.shunt_plan.specs.defs.PlanFormat.{PlanDraft};

    ghost Value = { PlanDraft };

    ghost view = { λ d. record { blocks = d.blocks.items; cost = d.cost } };
}

impl PlanDraft {
    fn read_more(&mut self, instance: &Instance, n: u32, row: &Row) -> Result<(), ReadError>
        ensures { Gives (λ _. self.new) result (answer n (more_of instance.now self.old row.now)) }
    {
        read_more(instance, &mut self.blocks, row, n)
    }

    #[tactic(auto, unfolding(crate::specs::defs::PlanFormat::cost_of))]
    fn read_cost(&mut self, n: u32, row: &Row) -> Result<(), ReadError>
        ensures { Gives (λ _. self.new) result (answer n (cost_of self.old row.now)) }
    {
        fields_in(row, n, 2, 2)?;
        let stated = number_in(row, n, 2, 0, 1_000_000_000_000)?;
        self.cost = Some(stated);
        Ok(())
    }
}

impl<'r> FormatReader<'r> for PlanDraft {
    type Context = Instance;

    type Output = Plan;

    ghost format = { λ night. plan_format night };

    ghost suits = { λ _. Unit };

    #[tactic(auto, unfolding(crate::specs::defs::PlanFormat::first_of))]
    fn read_first(_: &'r Instance, alloc: Global, row: &'r Row) -> Result<PlanDraft, ReadError> {
        read_first(row, b"plan")?;
        Ok(PlanDraft {
            blocks: Vec::new(alloc),
            cost: None,
        })
    }

    #[tactic(auto, unfolding(crate::specs::defs::PlanFormat::later_of))]
    fn read_later(
        &mut self,
        instance: &'r Instance,
        _: Global,
        n: u32,
        row: &'r Row,
    ) -> Result<(), ReadError> {
        must(self.cost.is_none(), n, 1, RowKind::Tail)?;
        let word = row.word();
        if word == b"block".as_slice() {
            return self.read_more(instance, n, row);
        }
        if word == b"cost".as_slice() {
            return self.read_cost(n, row);
        }
        must(false, n, 1, RowKind::Kind)?;
        Ok(())
    }

    fn is_whole(&self, _: &'r Instance) -> bool {
        self.cost.is_some()
    }

    fn into_output(self, _: &'r Instance) -> Plan {
        Plan {
            blocks: Items::from_vec(self.blocks),
            cost: self.cost.unwrap_or(0),
        }
    }
}

/// The plan that the records state, which is in range, or exactly their first fault.
///
/// `Fault` is the least fault by record, then field, then kind; `Memory` is want of memory.
pub fn read_plan(alloc: Global, instance: &Instance, rows: &Vec<Row>) -> Result<Plan, ReadError>
    ensures stated { Gives (λ p. p) result (reading (plan_format instance.now) rows.now.items) }
    ensures in_range { IfOk result (IsPlanInRange instance.now) }
{
    read::<PlanDraft>(instance, alloc, rows)
}
