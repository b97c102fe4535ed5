// The steps of two scripts, one after the other.
use crate::turn::turn;
use std::io;
use vectors_script::line_in;
use vectors_steps::world::World;

// No script has more than 700 steps, those counted that it draws.
pub fn play(
    rt: &impl Print,
    head: &[u8],
    script: &[u8],
    list: &mut [u8],
    first: &mut [u16],
    second: &mut [u16],
    third: &mut [u16],
    own2: &mut [u32],
    own3: &mut [u32],
    long1: &mut [u16],
    long2: &mut [u16],
) -> io::Result<()> {
    let mut world = World::start();
    for _ in 0..700 {
        let line = line_in(head, script, world.at);
        let Some(step) = world.next(line, list) else {
            world.at = line.next;
            continue;
        };
        let turn = turn(
            rt,
            step,
            world.table,
            world.input,
            list,
            first,
            second,
            third,
            own2,
            own3,
            long1,
            long2,
        )?;
        world.after(rt, line, step, turn, list)?;
    }
    Ok(())
}
