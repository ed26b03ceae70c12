// How blocks go and come together.
ghost use Rattle.std.specs.Prelude.{◌≡◌, ◌≤◌, List, All, length};
ghost use Rattle.shunt_blocks.specs.declared.records.Block.{Block as OneBlock};
ghost use Rattle.shunt_blocks.specs.defs.Shapes.{IsInRange};
ghost use Rattle.shunt_moves.specs.defs.States.{State};
ghost use Rattle.shunt_moves.specs.defs.Exchanges.{taken, put, exchanged, flipped, Extends};
ghost use Rattle.shunt_moves.specs.defs.Exchanges.{LeadsOn};

use crate::exchange::Exchange;
use crate::present::Present;
use shunt_blocks::Block;

impl<'i> Present<'i> {
    // The block goes, where there is one.
    fn take(&mut self, block: &Option<Block>)
        requires { (less : List OneBlock) × Extends block.now less self.old.state.blocks }
        ensures night { self.new.night ≡ self.old.night }
        ensures blocks { self.new.state.blocks ≡ taken block.now self.old.state.blocks }
    {
        if let Some(block) = block {
            self.go(block);
        }
    }

    // The block comes, where there is one.
    fn put(&mut self, block: &Option<Block>)
        requires { (more : List OneBlock) × Extends block.now self.old.state.blocks more
            × All (IsInRange self.old.night) more × (length more ≤ 400) }
        ensures night { self.new.night ≡ self.old.night }
        ensures blocks { self.new.state.blocks ≡ put block.now self.old.state.blocks }
    {
        if let Some(block) = block {
            self.come(block);
        }
    }

    /// Does an exchange, and gives the one that leads back. It takes no memory.
    pub fn exchange(&mut self, exchange: &Exchange) -> Exchange
        requires { (t : State) × LeadsOn self.old.night exchange.now self.old.state t }
        ensures night { self.new.night ≡ self.old.night }
        ensures state { self.new.state ≡ exchanged exchange.now self.old.state }
        ensures back { result ≡ flipped exchange.now self.old.state.next }
    {
        let back = exchange.flipped(self.next());
        self.take(&exchange.gone.first);
        self.take(&exchange.gone.second);
        self.put(&exchange.come.first);
        self.put(&exchange.come.second);
        self.set_next(exchange.next);
        back
    }
}
