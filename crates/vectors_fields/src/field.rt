// List A's field into buffers of 20, 15 and 14 bytes; and bytes that are fields, or none.
use fields::check::check_field;
use fields::write::write_field;
use refusals::Refused;
use std::io;
use vectors_shared::list::list_a;
use vectors_shared::shown::Hex;

fn told(rt: &impl Print, answer: Result<usize, Refused>) -> io::Result<()> {
    match answer {
        Ok(n) => print!(rt; " {n}"),
        Err(e) => print!(rt; " {e}"),
    }
}

pub fn written(rt: &impl Print) -> io::Result<()> {
    let mut out = [0xEEu8; 20];
    print!(rt; "written:")?;
    told(rt, write_field(&list_a(), &mut out))?;
    let bytes = Hex(&out);
    println!(rt; " bytes{bytes}")
}

pub fn short(rt: &impl Print) -> io::Result<()> {
    let mut just = [0xEEu8; 15];
    print!(rt; "15:")?;
    told(rt, write_field(&list_a(), &mut just))?;
    let mut less = [0xEEu8; 14];
    print!(rt; " 14:")?;
    told(rt, write_field(&list_a(), &mut less))?;
    let bytes = Hex(&less);
    println!(rt; "{bytes}")
}

// No byte; 0.0.0.0/0; 32 bits whole and cut; a length of 33; 10.1.0.0/16 and then an entry that ends early.
pub fn checked(rt: &impl Print) -> io::Result<()> {
    let fields: [&[u8]; 6] = [
        b"",
        b"\x00",
        b"\x20\x01\x02\x03\x04",
        b"\x20\x01\x02\x03",
        b"\x21\x01\x02\x03\x04\x05",
        b"\x10\x0A\x01\x18\x0A\x01",
    ];
    print!(rt; "faults:")?;
    for field in fields {
        match check_field(field) {
            Ok(()) => print!(rt; " 0")?,
            Err(why) => print!(rt; " {}", why.number())?,
        }
    }
    println!(rt; "")
}
