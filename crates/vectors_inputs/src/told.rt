// Addresses and what is said of their broadcast, as words.
use broadcast::broadcast;
use refusals::Refused;
use std::io;
use std::net::Ipv4Addr;

fn told(rt: &impl Print, answer: Result<bool, Refused>) -> io::Result<()> {
    match answer {
        Ok(true) => print!(rt; " yes"),
        Ok(false) => print!(rt; " no"),
        Err(e) => print!(rt; " {e}"),
    }
}

// Each address, and what both versions say of it.
pub fn both(rt: &impl Print, input: &[u8], addrs: &[u32]) -> io::Result<()> {
    for addr in addrs {
        print!(rt; "{}", Ipv4Addr::from_bits(*addr))?;
        told(rt, broadcast(1, input, *addr))?;
        told(rt, broadcast(2, input, *addr))?;
        println!(rt; "")?;
    }
    Ok(())
}

// Each version, and what it says.
pub fn versions(rt: &impl Print, versions: &[u32], input: &[u8], addr: u32) -> io::Result<()> {
    for version in versions {
        print!(rt; "version {version}")?;
        told(rt, broadcast(*version, input, addr))?;
        println!(rt; "")?;
    }
    Ok(())
}
