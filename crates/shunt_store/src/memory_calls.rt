// What one call of a store in memory moves.
ghost use Rattle.std.specs.Prelude.{◌≡◌, ◌-◌, ◌≤◌, min, length};
ghost use Rattle.shunt_store.specs.defs.Files.{HandsOut};
ghost use Rattle.shunt_store.specs.defs.Pieces.{bounded, LetsThrough};

/// How many of that many bytes a call moves.
pub fn in_one_call(piece: Option<usize>, count: usize) -> usize
    ensures value { result ≡ bounded piece count }
    ensures within { result ≤ count }
    ensures some { LetsThrough piece → 1 ≤ count → 1 ≤ result }
{
    match piece {
        None => count,
        Some(most) => count.min(most),
    }
}

/// Hands out the next bytes of a file.
pub fn hand_out(bytes: &[u8], taken: usize, piece: Option<usize>, buf: &mut [u8]) -> usize
    requires within { taken ≤ length bytes.now }
    requires piece { LetsThrough piece }
    ensures bytes { HandsOut bytes.now taken result buf.new }
    ensures bound { result ≤ length buf.new }
    ensures amount { result ≡ bounded piece (min (length bytes.now - taken) (length buf.new)) }
{
    let rest = &bytes[taken..];
    let n = in_one_call(piece, rest.len().min(buf.len()));
    buf[..n].copy_from_slice(&rest[..n]);
    n
}
