// From records to pins.
ghost use Rattle.std.specs.Prelude.{IfOk};
ghost use Rattle.shunt_rows.specs.defs.Formats.{reading};
ghost use Rattle.shunt_rows.specs.defs.Given.{Gives};
ghost use Rattle.shunt_blocks.specs.defs.Lists.{AreInRange};
ghost use Rattle.shunt_plan.specs.defs.PinsFormat.{pins_format};

use crate::block_records::{read_first, read_more};
use shunt_blocks::Block;
use shunt_instance::Instance;
use shunt_lists::Items;
use shunt_rows::{FormatReader, ReadError, Row, RowKind, must, read};
use std::alloc::Global;
use std::marker::Model;

// The pins that the records so far state.
#[derive(Debug, Drop)]
struct Pins {
    blocks: Vec<Block>,
}

impl Model for Pins {
    ghost use Rattle.std.specs.Prelude.{List};
    ghost use Rattle.shunt_blocks.specs.declared.records.Block.{Block};

    ghost Value = { List Block };

    ghost view = { λ p. p.blocks.items };
}

impl<'r> FormatReader<'r> for Pins {
    type Context = Instance;

    type Output = Items<Block>;

    ghost format = { λ night. pins_format night };

    ghost suits = { λ _. Unit };

    #[tactic(auto, unfolding(crate::specs::defs::PinsFormat::pins_first))]
    fn read_first(_: &'r Instance, alloc: Global, row: &'r Row) -> Result<Pins, ReadError> {
        read_first(row, b"pins")?;
        Ok(Pins {
            blocks: Vec::new(alloc),
        })
    }

    #[tactic(auto, unfolding(crate::specs::defs::PinsFormat::pins_later))]
    fn read_later(
        &mut self,
        instance: &'r Instance,
        _: Global,
        n: u32,
        row: &'r Row,
    ) -> Result<(), ReadError> {
        must(row.word() == b"block".as_slice(), n, 1, RowKind::Kind)?;
        read_more(instance, &mut self.blocks, row, n)
    }

    fn is_whole(&self, _: &'r Instance) -> bool {
        true
    }

    fn into_output(self, _: &'r Instance) -> Items<Block> {
        Items::from_vec(self.blocks)
    }
}

/// The pins that the records state, in their order and in range, or exactly their first fault.
///
/// `Fault` is the least fault by record, then field, then kind; `Memory` is want of memory.
pub fn read_pins(
    alloc: Global,
    instance: &Instance,
    rows: &Vec<Row>,
) -> Result<Vec<Block>, ReadError>
    ensures stated { Gives (λ v. v.items) result
        (reading (pins_format instance.now) rows.now.items) }
    ensures in_range { IfOk result (λ v. AreInRange instance.now v.items) }
{
    Ok(read::<Pins>(instance, alloc, rows)?.into_vec())
}
