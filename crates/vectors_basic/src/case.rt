// One case: maps built into arrays that held other numbers, damaged perhaps, and lookups in them.
use crate::say;
use std::io;

// How many bytes and cells are lent; which bytes are cleared after the build, and which cell is made another; whether the maps are shown,
// whether many addresses are looked up at once, and whether what is left is shown.
#[derive(Clone, Copy)]
pub struct Case {
    pub bytes: usize,
    pub cells: usize,
    pub cleared: [Option<usize>; 2],
    pub cell: Option<(usize, u16)>,
    pub maps: bool,
    pub many: bool,
    pub left: bool,
}

impl Case {
    // Arrays of these sizes, and nothing but lookups.
    pub fn sized(bytes: usize, cells: usize) -> Case {
        Case {
            bytes,
            cells,
            cleared: [None; 2],
            cell: None,
            maps: false,
            many: false,
            left: false,
        }
    }

    // Arrays of the sizes that maps have.
    pub fn plain() -> Case {
        Case::sized(16384, 131071)
    }

    // What is damaged, where it is lent.
    fn damage(self, bits: &mut [u8], cells: &mut [u16]) {
        for place in self.cleared {
            if let Some(at) = place
                && let Some(byte) = bits.get_mut(at)
            {
                *byte = 0;
            }
        }
        if let Some((at, value)) = self.cell
            && let Some(cell) = cells.get_mut(at)
        {
            *cell = value;
        }
    }

    // The case in arrays that are lent.
    fn run(
        self,
        rt: &impl Print,
        word: &str,
        input: &[u8],
        addrs: &[u32],
        bits: &mut [u8],
        cells: &mut [u16],
    ) -> io::Result<()> {
        say::built(rt, word, input, bits, cells)?;
        self.damage(bits, cells);
        if self.maps {
            say::maps(rt, bits, cells)?;
        }
        if self.many {
            say::many(rt, input, bits, cells)?;
        }
        say::finds(rt, input, bits, cells, addrs)?;
        if self.left {
            say::left(rt, bits, cells)?;
        }
        Ok(())
    }

    // The case, of an input, with these addresses.
    pub fn play(self, rt: &impl Print, word: &str, input: &[u8], addrs: &[u32]) -> io::Result<()> {
        let mut bits = [9u8; 16385];
        let mut cells = [9u16; 131072];
        let n = self.bytes.min(bits.len());
        let m = self.cells.min(cells.len());
        self.run(rt, word, input, addrs, &mut bits[..n], &mut cells[..m])
    }
}
