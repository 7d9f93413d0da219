// The map of power cuts: a save of three blocks, lost at every order, with the sets of kept writes of `sets` and the tears of `tears`. Before
// its first order a block of a photograph waits, written directly.
//
// The card has 65 blocks, the last the photograph's. `append` saves behind a log of one save, in 6 orders; `apply` behind a log of ten, 30 entries, which has no
// room, so that the save applies it first, in 39. A line is the scenario, the power of the save, and a character for each try of the
// cut that follows: the sets of kept writes, in the order of `sets`, then the tears, in the order of `tears`. A character is what is
// found in the end, the photograph's block aside: `o`, every data block is old; `n`, the three are new and the others old; `?`, anything
// else. It is `?` too if a byte of the photograph's block is neither as it was nor the photograph's. Behind each cut stands a recovery with
// all its power, and each cut inside it: with power for 0, 1 and 2 orders, with every try of its own, and a recovery then. If these
// differ it is `?`.
//
// The last line says whether there is a `?`. The file stdout holds the map; docs/powercut.py draws it.
#![tactic(auto)]

mod contents;
mod device;
mod filling;
mod finding;
mod loss;
mod map;
mod sets;
mod tears;
mod tries;

use crate::map::map;
use std::io;

fn main(rt: HostRuntime) -> io::Result<()> {
    let append = map(&rt, b"append", 1, 6)?;
    let apply = map(&rt, b"apply", 10, 39)?;
    say(&rt, append && apply)
}

fn say(rt: &impl Print, whole: bool) -> io::Result<()> {
    if whole {
        rt.write_all(b"every save is whole\n")
    } else {
        rt.write_all(b"a save is not whole\n")
    }
}
