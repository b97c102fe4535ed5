// Hop records: a port, an up or down mark, and counts of packets and octets; hop h at place h of a lent list, counted from 1. One function has a
// reference to records, `send`; the others work on values.
#![tactic(auto)]

ghost use Rattle.std.specs.Prelude.{◌≡◌};
ghost use Rattle.hop_records.specs.Records.{counted_by};
ghost use Rattle.hop_records.specs.Steps.{sent_by, sent, record_word, plain_word, send_word, place_of_hop};

// One record. `up` is 1 for up; every other number is down.
// Stays: `up` is a byte and no bool. The record is laid out as in C, where a caller may store any byte.
#[repr(C)]
#[derive(Clone, Copy)]
pub struct HopRecord {
    pub port: u16,
    pub up: u8,
    pub packets: u32,
    pub octets: u32,
}

// The record after one packet more, of n octets. Both counts are Counter32 (RFC 2578): after 4,294,967,295 the next value is 0.
fn counted(r: HopRecord, n: u32) -> HopRecord
    ensures { result ≡ counted_by r n }
{
    HopRecord {
        packets: r.packets.wrapping_add(1),
        octets: r.octets.wrapping_add(n),
        ..r
    }
}

// The record after a packet of n octets has come to it: counted if it is up, and else as it was.
pub fn after(r: HopRecord, n: u32) -> HopRecord
    ensures { result ≡ sent_by r n }
{
    if r.up == 1 {
        return counted(r, n);
    }
    r
}

// The answer with a record: a lookup's word with the port in bits 32 to 47, and 15 if the record is down.
pub fn with_record(r: HopRecord, w: u64) -> u64
    ensures { result ≡ record_word r w }
{
    if r.up == 1 {
        return w % 4294967296 + u64::from(r.port) * 4294967296;
    }
    15
}

// The answer without one: 14 if the word has a hop, and else the word itself.
pub fn without_record(w: u64) -> u64
    ensures { result ≡ plain_word w }
{
    if w % 256 == 0 {
        if 65536 <= w {
            return 14;
        }
    }
    w
}

// The place, from 0, of the record of a lookup's word; `none`, which is past the end, if the word has no hop, or one over 32,767.
pub fn place(w: u64, none: usize) -> usize
    ensures { result ≡ place_of_hop w none }
{
    if w % 256 == 0 {
        if 65536 <= w {
            if w < 2147483648 {
                return (w / 65536) as usize - 1;
            }
        }
    }
    none
}

// A packet of n octets comes to the record at place k, which is counted if it is up. The answer is that of `with_record`; `none`, and no change, past the
// end.
pub fn send(records: &mut [HopRecord], k: usize, n: u32, w: u64, none: u64) -> u64
    ensures { (result ≡ send_word records.old k w none) × (records.new ≡ sent records.old k n) }
{
    let mut s = none;
    if k < records.len() {
        let r = records[k];
        s = with_record(r, w);
        records[k] = after(r, n);
    }
    s
}
