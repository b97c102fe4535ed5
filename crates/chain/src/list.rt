// The words of a list with their chain.
ghost use Rattle.std.specs.Prelude.{length};
ghost use Rattle.chain.specs.List.{ChainRoom, Chained, ChainedBelow, ChainedFront};

use super::cover::ready;
use super::words::decode;

// The routes of a list as words, with the chain that answers for a cell: `ws` and `par` are room for them.
pub fn chained(list: &[u8], ws: &mut [u64], par: &mut [u16])
    requires { ChainRoom list.now ws.old par.old }
    ensures { Chained list.now (length ws.old) ws.new par.new }
{
    decode(list, 0, ws);
    ready(ws, 0, par);
}

// The same for the first n records, at the front of room for any list. It goes on from record k: the words before it stand
// there already, with their parents.
pub fn chained_from(list: &[u8], n: usize, k: usize, ws: &mut [u64], par: &mut [u16])
    requires { ChainedBelow list.now n k ws.old par.old }
    ensures { ChainedFront list.now n ws.new par.new }
{
    decode(list, k, &mut ws[..n]);
    ready(&ws[..n], k, par);
}
