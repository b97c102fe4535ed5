// List A's maps, changed by a fault.
use crate::case::Case;
use std::io;
use vectors_shared::list::list_a;

// Looked up are 10.2.0.1, 10.1.3.1 and 10.1.2.200.
fn damaged(rt: &impl Print, word: &str, case: Case) -> io::Result<()> {
    case.play(
        rt,
        word,
        &list_a(),
        &[0x0A02_0001, 0x0A01_0301, 0x0A01_02C8],
    )
}

// With the bit of 10.1.0.0/16 cleared its cell no longer counts, nor that of 10.0.0.0/8 with its own.
pub fn bits(rt: &impl Print) -> io::Result<()> {
    let mut case = Case::plain();
    case.cleared[0] = Some(8512);
    damaged(rt, "bit of 10.1.0.0/16", case)?;
    case.cleared[1] = Some(33);
    damaged(rt, "and of 10.0.0.0/8", case)
}

// The cell of 10.0.0.0/8 made another: it is met by its own addresses alone.
fn cell(rt: &impl Print, word: &str, value: u16) -> io::Result<()> {
    let case = Case {
        cell: Some((265, value)),
        ..Case::plain()
    };
    damaged(rt, word, case)
}

pub fn cells(rt: &impl Print) -> io::Result<()> {
    cell(rt, "cell 0", 0)?;
    cell(rt, "cell 32768", 32768)?;
    cell(rt, "cell 32767", 32767)
}

// Many at once, with the cell of 0.0.0.0/0 made 0: a word for each is what its lookup answers.
pub fn many(rt: &impl Print) -> io::Result<()> {
    let case = Case {
        cell: Some((0, 0)),
        many: true,
        ..Case::plain()
    };
    case.play(rt, "many", &list_a(), &[])
}
