// What is kept of an edit.
ghost use Rattle.std.specs.Prelude.{◌≡◌};
ghost use Rattle.shunt_moves.specs.defs.Exchanges.{none, one, two, flipped};

use shunt_blocks::Block;

/// At most two blocks.
#[derive(Clone, Copy, Debug)]
pub struct BlockPair {
    pub first: Option<Block>,
    pub second: Option<Block>,
}

/// Some blocks go, then others come, each the first before the second, and the next new block gets another id.
#[derive(Clone, Copy, Debug)]
pub struct Exchange {
    pub gone: BlockPair,
    pub come: BlockPair,
    pub next: u32,
}

impl BlockPair {
    pub fn none() -> BlockPair
        ensures { result ≡ none }
    {
        BlockPair {
            first: None,
            second: None,
        }
    }

    pub fn one(block: Block) -> BlockPair
        ensures { result ≡ one block }
    {
        BlockPair {
            first: Some(block),
            second: None,
        }
    }

    pub fn two(first: Block, second: Block) -> BlockPair
        ensures { result ≡ two first second }
    {
        BlockPair {
            first: Some(first),
            second: Some(second),
        }
    }

    fn turned(self) -> BlockPair
        ensures { result ≡ record { first = self.second; second = self.first } }
    {
        BlockPair {
            first: self.second,
            second: self.first,
        }
    }
}

impl Exchange {
    /// The exchange that leads back to a state with this next id.
    pub fn flipped(&self, next: u32) -> Exchange
        ensures { result ≡ flipped self.now next }
    {
        Exchange {
            gone: self.come.turned(),
            come: self.gone.turned(),
            next,
        }
    }
}
