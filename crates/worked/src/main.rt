// The message layer at work, for the developer of a gate: every message is written into a lent area, shown, and read back where it stands; then what is refused.
// Values: document 01, 'Known exchanges', and the tables of clauses 3.2.2 and 3.2.3. On the crates of the message layer, by their contracts; what is shown is
// compared with the file stdout.
#![tactic(auto)]

mod shown;

ghost use Rattle.std.specs.Prelude.{◌≡◌};
ghost use Rattle.octets.specs.Area.{outcome};
ghost use Rattle.worked.specs.Result.{number_of};

use octets::{Access, Form, Unwritten, Written};
use shown::{hexadecimal, number, text};
use std::io;

// A tag.
const K: u64 = 0x0011_2233_4455_6677;
// Another, of volatile memory.
const V: u64 = 0x80aa_bbcc_ddee_ff00;
// A password.
const P: u64 = 0x0102_0304_0506_0708;
// What every octet of an area is before anything is written to it.
const OLD: u8 = 0x5a;

// The length of the message that was written, or document 01's number.
fn result(written: Written) -> usize
    ensures { result ≡ number_of (outcome written) }
{
    match written {
        Ok(n) => n,
        Err(Unwritten::Refused) => 16,
        Err(Unwritten::NoRoom) => 300,
    }
}

// ---- messages, written and read back

// Shows the message that was written, of a long one its first 20 octets and its length; and tells its octets.
fn message<'a>(
    rt: &impl Print,
    name: &str,
    written: Written,
    area: &'a [u8],
) -> io::Result<&'a [u8]> {
    let s = octets::part(area, 0, result(written));
    text(rt, name)?;
    text(rt, " ")?;
    if s.len() <= 64 {
        hexadecimal(rt, s)?;
    } else {
        hexadecimal(rt, &s[..20])?;
        number(rt, s.len())?;
    }
    text(rt, "\n ")?;
    Ok(s)
}

// Shows the request that was written, and what it reads back as.
fn request(rt: &impl Print, name: &str, written: Written, area: &[u8]) -> io::Result<()> {
    shown::request(rt, message(rt, name, written, area)?)
}

fn answer(rt: &impl Print, name: &str, written: Written, area: &[u8]) -> io::Result<()> {
    shown::answer(rt, message(rt, name, written, area)?)
}

// Of one tag, plain or with its password.
fn single_requests(rt: &impl Print, area: &mut [u8; 2048], access: Access) -> io::Result<()> {
    let written = requests::write_allocate(area, 1, access, K, 0, 1, &[]);
    request(rt, "allocate", written, area)?;
    request(rt, "free", requests::write_free(area, 1, access, K), area)?;
    request(rt, "read", requests::write_read(area, 1, access, K), area)?;
    let written = requests::write_write(area, 1, access, K, &[0xaa]);
    request(rt, "write", written, area)
}

// Of lists of tags, and an allocation with a mode and an initial value.
fn other_requests(rt: &impl Print, area: &mut [u8; 2048]) -> io::Result<()> {
    let plain = Form::Plain;
    let one = [0xaa];
    let written = requests::write_resources(area, 1, &[K]);
    request(rt, "resources", written, area)?;
    let written = requests::write_allocate(area, 1, Access::Plain, V, 5, 1024, &[0xaa, 0xbb]);
    request(rt, "allocate", written, area)?;
    let written = requests::write_bulk_read(area, 1, plain, &[K, V], &[]);
    request(rt, "bulk-read", written, area)?;
    let written = requests::write_bulk_read(area, 1, Form::Password, &[K], &[P]);
    request(rt, "bulk-read", written, area)?;
    let written = requests::write_bulk_write(area, 1, plain, &[K, V], &[], &[0, 1], &[1, 0], &one);
    request(rt, "bulk-write", written, area)?;
    let written = requests::write_bulk_write(area, 1, Form::Password, &[K], &[P], &[0], &[1], &one);
    request(rt, "bulk-write", written, area)
}

// Where lengths and counts go from one octet to two.
fn long_requests(rt: &impl Print, area: &mut [u8; 2048]) -> io::Result<()> {
    let plain = Access::Plain;
    let data = [0xaa; 200];
    let tags = [K; 255];
    let written = requests::write_write(area, 1, plain, K, &data[..118]);
    request(rt, "write-118", written, area)?;
    let written = requests::write_write(area, 1, plain, K, &data[..119]);
    request(rt, "write-119", written, area)?;
    let written = requests::write_write(area, 1, plain, K, &data);
    request(rt, "write-200", written, area)?;
    let written = requests::write_bulk_read(area, 1, Form::Plain, &tags[..16], &[]);
    request(rt, "bulk-read-16", written, area)?;
    let written = requests::write_bulk_read(area, 1, Form::Plain, &tags[..17], &[]);
    request(rt, "bulk-read-17", written, area)?;
    let written = requests::write_bulk_read(area, 1, Form::Plain, &tags, &[]);
    request(rt, "bulk-read-255", written, area)
}

fn single_answers(rt: &impl Print, area: &mut [u8; 2048], form: Form) -> io::Result<()> {
    let written = answers::write_allocate(area, 1, form, K);
    answer(rt, "allocate", written, area)?;
    answer(rt, "free", answers::write_free(area, 1, form, K), area)?;
    let written = answers::write_read(area, 1, form, K, &[0xaa]);
    answer(rt, "read", written, area)?;
    answer(rt, "write", answers::write_write(area, 1, form, K), area)
}

// Lists, and the denial.
fn other_answers(rt: &impl Print, area: &mut [u8; 2048]) -> io::Result<()> {
    let room = resources::Room {
        largest: 2048,
        tags: 31,
        octets: 8128,
        volatile_tags: 31,
        volatile_octets: 8128,
        entries: 16,
    };
    let written = answers::write_resources(area, 1, room, &[K], &[5], &[0], &[64]);
    answer(rt, "resources", written, area)?;
    let written = answers::write_bulk_read(area, 1, Form::Plain, &[K], &[0], &[1], &[0xaa]);
    answer(rt, "bulk-read", written, area)?;
    let written = answers::write_bulk_read(area, 1, Form::Password, &[K], &[0], &[1], &[0xaa]);
    answer(rt, "bulk-read", written, area)?;
    let written = answers::write_bulk_write(area, 1, Form::Plain, &[K, K]);
    answer(rt, "bulk-write", written, area)?;
    let written = answers::write_bulk_write(area, 1, Form::Password, &[K]);
    answer(rt, "bulk-write", written, area)?;
    let written = answers::write_denial(area, 1, 4, &[0x10]);
    answer(rt, "denial", written, area)
}

// ---- what is refused

// The number that a writer gave.
fn refusal(rt: &impl Print, name: &str, written: Written) -> io::Result<()> {
    text(rt, name)?;
    text(rt, ":")?;
    number(rt, result(written))?;
    text(rt, "\n")
}

// Whether octets are still as they were.
fn kept(rt: &impl Print, name: &str, s: &[u8]) -> io::Result<()> {
    text(rt, name)?;
    if s.iter().all(|octet| *octet == OLD) {
        text(rt, ": kept\n")
    } else {
        text(rt, ": changed\n")
    }
}

// Values and lengths that no message may have: 16.
fn refused_values(rt: &impl Print, area: &mut [u8; 2048]) -> io::Result<()> {
    let plain = Access::Plain;
    let long = [0xaa; 2033];
    let written = requests::write_read(area, 16, plain, K);
    refusal(rt, "version 16", written)?;
    let written = requests::write_allocate(area, 1, plain, K, 3, 1, &[]);
    refusal(rt, "mode 03", written)?;
    let written = requests::write_allocate(area, 1, plain, K, 8, 1, &[]);
    refusal(rt, "mode 08", written)?;
    let written = answers::write_denial(area, 1, 16, &long[..128]);
    refusal(rt, "supplement of 128 octets", written)?;
    let written = requests::write_write(area, 1, plain, K, &long);
    refusal(rt, "write of 2033 octets", written)?;
    kept(rt, "area", area)
}

// Slices that describe no message: 16; an area one octet too short: 300, and 16 before it.
fn refused_slices(rt: &impl Print, area: &mut [u8; 2048]) -> io::Result<()> {
    let plain = Access::Plain;
    let mut short = [OLD; 12];
    let written = requests::write_bulk_read(area, 1, Form::Password, &[K, V], &[P]);
    refusal(rt, "passwords one too few", written)?;
    let written = requests::write_bulk_write(area, 1, Form::Plain, &[K], &[], &[0], &[2], &[0xaa]);
    refusal(rt, "part past the octets", written)?;
    kept(rt, "area", area)?;
    let written = requests::write_read(&mut short, 1, plain, K);
    refusal(rt, "area of 12 octets", written)?;
    let written = requests::write_read(&mut short, 16, plain, K);
    refusal(rt, "version 16 in an area of 12 octets", written)?;
    kept(rt, "area of 12 octets", &short)?;
    let _ = requests::write_read(area, 1, plain, K);
    kept(rt, "area with a read", area)?;
    kept(rt, "octets past a read", &area[13..])
}

// Octets that are no message: 16.
fn damaged(rt: &impl Print) -> io::Result<()> {
    text(rt, "empty:")?;
    shown::request(rt, b"")?;
    text(rt, "80 08 for a length:")?;
    shown::request(
        rt,
        b"\x10\x01\x03\x00\x80\x08\x00\x11\x22\x33\x44\x55\x66\x77",
    )?;
    text(rt, "C0 for a length:")?;
    shown::request(rt, b"\x10\x01\x03\x00\xC0")?;
    text(rt, "fill bits not zero:")?;
    shown::request(rt, b"\x11\x01\x03\x00\x08\x00\x11\x22\x33\x44\x55\x66\x77")?;
    text(rt, "stray octet:")?;
    shown::request(
        rt,
        b"\x10\x01\x03\x00\x09\x00\x11\x22\x33\x44\x55\x66\x77\x00",
    )?;
    text(rt, "mode 03:")?;
    let mode = b"\x10\x01\x01\x00\x0E\x00\x11\x22\x33\x44\x55\x66\x77\x03\x00\x00\x00\x01\x00";
    shown::request(rt, mode)?;
    text(rt, "answer as a request:")?;
    shown::request(rt, b"\x10\x01\x81\x00\x08\x00\x11\x22\x33\x44\x55\x66\x77")?;
    text(rt, "denial with 80 for a length:")?;
    shown::answer(rt, b"\x10\xFF\x10\x80")?;
    let mut long = [0xaa; 2049];
    long[..5].copy_from_slice(b"\x10\xFF\x10\x80\x80");
    text(rt, "denial with 128 octets:")?;
    shown::answer(rt, &long[..133])?;
    let head = b"\x10\x01\x04\x00\x87\xFB\x00\x11\x22\x33\x44\x55\x66\x77\x87\xF1";
    long[..16].copy_from_slice(head);
    text(rt, "2049 octets:")?;
    shown::request(rt, &long)
}

fn main(rt: HostRuntime) -> io::Result<()> {
    let mut area = [OLD; 2048];
    other_requests(&rt, &mut area)?;
    single_requests(&rt, &mut area, Access::Plain)?;
    single_requests(&rt, &mut area, Access::Password(P))?;
    long_requests(&rt, &mut area)?;
    other_answers(&rt, &mut area)?;
    single_answers(&rt, &mut area, Form::Plain)?;
    single_answers(&rt, &mut area, Form::Password)?;
    let mut fresh = [OLD; 2048];
    refused_values(&rt, &mut fresh)?;
    refused_slices(&rt, &mut fresh)?;
    damaged(&rt)
}
