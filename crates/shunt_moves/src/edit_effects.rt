// What goes and what comes at each edit, or why it is refused.
ghost use Rattle.std.specs.Prelude.{◌≡◌, ◌+◌, ◌<◌, ◌≤◌, IfOk};
ghost use Rattle.shunt_blocks.specs.defs.Shapes.{IsInRange};
ghost use Rattle.shunt_moves.specs.defs.Edits.{are_runs_within, is_on_track, continues, front_of};
ghost use Rattle.shunt_moves.specs.defs.Edits.{rest_of};
ghost use Rattle.shunt_moves.specs.defs.Exchanges.{must, named, room_in, adding, dropping, parking};
ghost use Rattle.shunt_moves.specs.defs.Exchanges.{cutting, joining, planned};

use crate::exchange::{BlockPair, Exchange};
use crate::present::{Present, find};
use crate::types::MoveError;
use shunt_blocks::{Block, Park, Shape, are_runs_within, shape_of};
use shunt_instance::Instance;
use shunt_plan::Edit;

/// Whether both trains are there, and both runs end inside their trains.
fn are_within(instance: &Instance, shape: Shape) -> bool
    ensures { result ≡ are_runs_within instance.now shape }
{
    are_runs_within(instance, shape)
}

/// Whether the track is the station's.
fn is_on_track(instance: &Instance, park: Option<Park>) -> bool
    ensures { result ≡ is_on_track instance.now.station park }
{
    match park {
        Some(park) => (park.track.0 as usize) < instance.station().tracks.len(),
        None => true,
    }
}

/// Goes on where this holds.
fn must(holds: bool, error: MoveError) -> Result<(), MoveError>
    ensures { result ≡ must holds error }
{
    if !holds {
        return Err(error);
    }
    Ok(())
}

/// Whether the second block continues the first in both trains.
fn continues(first: &Block, second: &Block) -> bool
    ensures { result ≡ continues first.now second.now }
{
    if first.arr.0 != second.arr.0 {
        return false;
    }
    if first.p as u32 + first.n as u32 != second.p as u32 {
        return false;
    }
    if first.dep.0 != second.dep.0 {
        return false;
    }
    first.q as u32 + first.n as u32 == second.q as u32
}

/// Trains are short, and so are the runs of a block in range.
fn tell_runs(instance: &Instance, block: &Block)
    requires { IsInRange instance.now block.now }
    ensures units { block.now.p + block.now.n ≤ 9 }
    ensures positions { block.now.q + block.now.n ≤ 9 }
{
    // Both calls tell that a train has at most 8 units.
    instance.arrive(block.arr);
    instance.depart(block.dep);
}

/// The first k pairs of a block.
fn front_of(block: &Block, k: u8) -> Block
    ensures { result ≡ front_of k block.now }
{
    Block { n: k, ..*block }
}

/// The pairs behind the first k, with another id.
fn rest_of(block: &Block, k: u8, id: u32) -> Block
    requires some { k < block.now.n }
    requires p { block.now.p + block.now.n < 256 }
    requires q { block.now.q + block.now.n < 256 }
    ensures { result ≡ rest_of k id block.now }
{
    Block {
        id,
        p: block.p + k,
        n: block.n - k,
        q: block.q + k,
        ..*block
    }
}

impl<'i> Present<'i> {
    /// The block with an id.
    fn named(&self, id: u32) -> Result<Block, MoveError>
        ensures exact { result ≡ named self.now.state id }
        ensures in_range { IfOk result (IsInRange self.now.night) }
    {
        match find(self.blocks(), id) {
            Some(block) => Ok(block),
            None => Err(MoveError::NoBlock),
        }
    }

    /// Room and an id for one block more.
    #[tactic(auto, unfolding(crate::specs::defs::Exchanges::room_in))]
    fn room(&self) -> Result<(), MoveError>
        ensures { result ≡ room_in self.now.state }
    {
        must(self.blocks().len() != 400, MoveError::Full)?;
        must(self.next() != 1_000_001, MoveError::IdsSpent)
    }

    /// One block comes.
    #[tactic(auto, unfolding(crate::specs::defs::Exchanges::adding))]
    fn adding(&self, block: Block) -> Result<Exchange, MoveError>
        requires { self.now.state.next ≤ 1000001 }
        ensures { result ≡ adding self.now.night self.now.state block }
    {
        let instance = self.instance;
        let is_within = are_within(instance, shape_of(&block)) && is_on_track(instance, block.park);
        must(is_within, MoveError::BadRange)?;
        self.room()?;
        Ok(Exchange {
            gone: BlockPair::none(),
            come: BlockPair::one(block),
            next: self.next() + 1,
        })
    }

    /// One goes.
    #[tactic(auto, unfolding(crate::specs::defs::Exchanges::dropping))]
    fn dropping(&self, id: u32) -> Result<Exchange, MoveError>
        ensures { result ≡ dropping self.now.state id }
    {
        let block = self.named(id)?;
        Ok(Exchange {
            gone: BlockPair::one(block),
            come: BlockPair::none(),
            next: self.next(),
        })
    }

    /// One goes, and comes with another option.
    #[tactic(auto, unfolding(crate::specs::defs::Exchanges::parking))]
    fn parking(&self, id: u32, park: Option<Park>) -> Result<Exchange, MoveError>
        ensures { result ≡ parking self.now.night self.now.state id park }
    {
        let block = self.named(id)?;
        must(is_on_track(self.instance, park), MoveError::BadRange)?;
        Ok(Exchange {
            gone: BlockPair::one(block),
            come: BlockPair::one(Block { park, ..block }),
            next: self.next(),
        })
    }

    /// One goes, and comes in two parts.
    #[tactic(auto, unfolding(crate::specs::defs::Exchanges::cutting))]
    fn cutting(&self, id: u32, k: u8) -> Result<Exchange, MoveError>
        requires { self.now.state.next ≤ 1000001 }
        ensures { result ≡ cutting self.now.state id k }
    {
        let block = self.named(id)?;
        must(!(k == 0 || block.n <= k), MoveError::BadCount)?;
        self.room()?;
        let next = self.next();
        tell_runs(self.instance, &block);
        Ok(Exchange {
            gone: BlockPair::one(block),
            come: BlockPair::two(front_of(&block, k), rest_of(&block, k, next)),
            next: next + 1,
        })
    }

    /// Two go, and come as one.
    #[tactic(auto, unfolding(crate::specs::defs::Exchanges::joining))]
    fn joining(&self, first: u32, second: u32) -> Result<Exchange, MoveError>
        ensures { result ≡ joining self.now.state first second }
    {
        let front = self.named(first)?;
        let rest = self.named(second)?;
        must(continues(&front, &rest), MoveError::NotAdjacent)?;
        tell_runs(self.instance, &front);
        tell_runs(self.instance, &rest);
        let n = front.n + rest.n;
        Ok(Exchange {
            gone: BlockPair::two(rest, front),
            come: BlockPair::one(Block { n, ..front }),
            next: self.next(),
        })
    }

    /// What goes and what comes at an edit, or why it is refused. It takes no memory.
    #[tactic(auto, unfolding(crate::specs::defs::Exchanges::planned))]
    pub fn planned(&self, edit: &Edit) -> Result<Exchange, MoveError>
        requires { self.now.state.next ≤ 1000001 }
        ensures { result ≡ planned self.now.night self.now.state edit.now }
    {
        match *edit {
            Edit::Add {
                arr,
                p,
                n,
                dep,
                q,
                park,
            } => self.adding(Block {
                id: self.next(),
                arr,
                p,
                n,
                dep,
                q,
                park,
            }),
            Edit::Drop { id } => self.dropping(id),
            Edit::Park { id, park } => self.parking(id, Some(park)),
            Edit::Unpark { id } => self.parking(id, None),
            Edit::Cut { id, k } => self.cutting(id, k),
            Edit::Join { first, second } => self.joining(first, second),
        }
    }
}
