// How many pairs of stays cross, and how many entries leave more than their track's length.
ghost use Rattle.std.specs.Prelude.{◌≡◌, ◌↔◌, ◌≤◌, length};
ghost use Rattle.shunt_base.specs.defs.Keys.{AreStays};
ghost use Rattle.shunt_stays.specs.defs.Run.{AreOnTracks, GoesThrough};
ghost use Rattle.shunt_stays.specs.defs.Crossings.{pairs_in, overs_in};

use crate::crossings::crossed_by;
use crate::loads::is_over;
use shunt_base::Stay;

/// What keeps a run from going through.
#[derive(Clone, Copy, Debug, PartialEq, Eq)]
pub struct Clash {
    /// How many pairs of stays cross.
    pub pairs: u32,
    /// How many entries leave more than their track's length.
    pub over: u32,
}

fn pairs(stays: &[Stay]) -> u32
    requires stays { AreStays stays.now }
    requires few { length stays.now ≤ 65536 }
    ensures { result ≡ pairs_in stays.now }
{
    let mut pairs = 0;
    for stay in stays {
        pairs += crossed_by(stays, stay);
    }
    pairs
}

fn overs(lengths: &[u32], stays: &[Stay]) -> u32
    requires stays { AreStays stays.now }
    requires tracks { AreOnTracks lengths.now stays.now }
    requires few { length stays.now ≤ 65536 }
    ensures { result ≡ overs_in lengths.now stays.now }
{
    let mut over = 0;
    for stay in stays {
        if is_over(lengths, stays, stay) {
            over += 1;
        }
    }
    over
}

/// How these stays clash on tracks of these lengths, in dm: not at all exactly when their run goes through.
///
/// A track's number is its place among the lengths. Each pair that crosses counts once. There are at most 65,536 stays, which
/// are well formed; no two have one id, and each has a track among these. It takes no memory.
pub fn clashes(lengths: &[u32], stays: &[Stay]) -> Clash
    requires stays { AreStays stays.now }
    requires tracks { AreOnTracks lengths.now stays.now }
    requires few { length stays.now ≤ 65536 }
    ensures pairs { result.pairs ≡ pairs_in stays.now }
    ensures over { result.over ≡ overs_in lengths.now stays.now }
    ensures through { (result.pairs ≡ 0) × (result.over ≡ 0) ↔ GoesThrough lengths.now stays.now }
{
    Clash {
        pairs: pairs(stays),
        over: overs(lengths, stays),
    }
}
