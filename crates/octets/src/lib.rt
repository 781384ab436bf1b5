// Octets: the fields that every message of document 01 is made of, read in place by a reader and written into a slice that the caller lends.
// Rules: document 01, 'Messages' and 'Tags'. What each function means stands in specs/; no function asks anything of its caller.
#![tactic(auto)]

ghost use Rattle.std.specs.Prelude.{ℕ, List, ◌≡◌, ◌+◌, ◌-◌, ◌^◌, ◌<◌, ◌≤◌, length, take, drop};
ghost use Rattle.octets.specs.Length.{encode_length};
ghost use Rattle.octets.specs.Layout.{Layout, field_octets, size};
ghost use Rattle.octets.specs.Number.{number, octets, width_of, version_part, fill_part, bare};
ghost use Rattle.octets.specs.Area.{Laid, Does};
ghost use Rattle.octets.specs.Frame.{opened};
ghost use Rattle.octets.specs.View.{to_end, Reads, LengthAt, NumberAt, DataAt, ListAt, HeadingOf, EnclosedOf};

// What is wrong with octets that do not decode. The first three are of a length or a count alone.
#[derive(Clone, Copy, PartialEq, Eq)]
pub enum Fault {
    // Octets are missing, the second of a two-octet length included.
    Missing,
    // A longer form than the number needs.
    Longer,
    // A first octet from C0 upward.
    High,
    Other,
}

// How a command shows its right to a tag: not at all, or by a password. Any 64 bits are a password, zero too.
// It is no Option: document 01 names a plain-or-password enum.
#[derive(Clone, Copy, PartialEq, Eq)]
pub enum Access {
    Plain,
    Password(u64),
}

// By which port a command came.
#[derive(Clone, Copy, PartialEq, Eq)]
pub enum Port {
    Normal,
    Secure,
}

// Whether the tags of a message come plain or each with its password.
#[derive(Clone, Copy, PartialEq, Eq)]
pub enum Form {
    Plain,
    Password,
}

// ---- what is read

// A value that was read, and where the next field starts.
#[derive(Clone, Copy)]
pub struct Taken<T> {
    pub value: T,
    pub next: usize,
}

// What reading at a place gives.
pub type Reading<T> = Result<Taken<T>, Fault>;

impl<T: Copy> Taken<T> {
    // The value, if the next field would start where the octets end: nothing stands behind it.
    pub fn to_end(self, s: &[u8]) -> Result<T, Fault>
        ensures { result ≡ to_end s.now self }
    {
        if self.next < s.len() {
            return Err(Fault::Other);
        }
        Ok(self.value)
    }
}

// A part of a slice.
#[derive(Clone, Copy)]
pub struct Span {
    pub start: usize,
    pub len: usize,
}

// A list that stands in a message: where its first entry starts, and how many there are.
#[derive(Clone, Copy)]
pub struct Entries {
    pub start: usize,
    pub count: usize,
}

// How many octets a number's field has.
#[derive(Clone, Copy)]
pub enum Width {
    One,
    Two,
    Four,
    Eight,
}

pub fn octets_of(width: Width) -> usize
    ensures { (result ≡ width_of width) × (1 ≤ result) × (result ≤ 8) }
{
    match width {
        Width::One => 1,
        Width::Two => 2,
        Width::Four => 4,
        Width::Eight => 8,
    }
}

// ---- a reader

// Octets that are read in place, and the place where the reader stands.
#[derive(Clone, Copy)]
pub struct Reader<'a> {
    pub src: &'a [u8],
    pub at: usize,
}

impl<'a> Reader<'a> {
    pub fn new(src: &'a [u8], at: usize) -> Reader<'a>
        ensures { (result.src ≡ src.entry) × (result.at ≡ at) }
    {
        Reader { src, at }
    }

    // Where the reader stands.
    pub fn place(self) -> usize
        ensures { result ≡ self.entry.at }
    {
        self.at
    }

    // How many octets are left from there on; past the end none.
    pub fn left(self) -> usize
        ensures { result ≡ length self.entry.src.now - self.entry.at }
    {
        self.src.len().saturating_sub(self.at)
    }

    // The length or count that stands there.
    pub fn length(self) -> Reading<usize>
        ensures { LengthAt self.entry.src.now self.entry.at result }
    {
        length_of(self.src, self.at)
    }

    // The number of a field that stands there, high part first.
    pub fn number(self, width: Width) -> Reading<u64>
        ensures { NumberAt self.entry.src.now self.entry.at width result }
    {
        let s = self.src;
        let at = self.at;
        let n = octets_of(width);
        // Two tests and not one of `left`: so the compiler knows that the place lies within the octets.
        if s.len() < at {
            return Err(Fault::Other);
        }
        if s.len() - at < n {
            return Err(Fault::Other);
        }
        Ok(Taken {
            value: number_of(&s[at..at + n]),
            next: at + n,
        })
    }

    // The octets of a span that starts there, as the part of the slice where they stand; of one that reaches past the slice, those that are there.
    pub fn part(self, len: usize) -> &'a [u8]
        ensures { result.now ≡ take len (drop self.entry.at self.entry.src.now) }
    {
        let start = self.at.min(self.src.len());
        &self.src[start..start + len.min(self.left())]
    }
}

fn length_of(s: &[u8], at: usize) -> Reading<usize>
    ensures { LengthAt s.now at result }
{
    if s.len() <= at {
        return Err(Fault::Missing);
    }
    let a = s[at] as usize;
    if a < 128 {
        return Ok(Taken {
            value: a,
            next: at + 1,
        });
    }
    if 192 <= a {
        return Err(Fault::High);
    }
    if s.len() - at < 2 {
        return Err(Fault::Missing);
    }
    let n = (a - 128) * 256 + s[at + 1] as usize;
    if n <= 127 {
        return Err(Fault::Longer);
    }
    Ok(Taken {
        value: n,
        next: at + 2,
    })
}

// A number of at most eight octets, high part first.
fn number_of(s: &[u8]) -> u64
    requires { length s.now ≤ 8 }
    ensures { (result ≡ number s.now) × (result < 256 ^ length s.now) }
{
    let mut eight = [0; 8];
    eight[8 - s.len()..].copy_from_slice(s);
    u64::from_be_bytes(eight)
}

// ---- the fields, at a place

// Slice and place come apart here and in the crates above: document 01 names a cursor by value, and one that moves
// would be handed on by `&mut`.

// The length or count that stands at a place.
pub fn read_length(s: &[u8], at: usize) -> Reading<usize>
    ensures { LengthAt s.now at result }
{
    Reader::new(s, at).length()
}

// The number of a field at a place, high part first.
pub fn read_number(s: &[u8], at: usize, width: Width) -> Reading<u64>
    ensures { NumberAt s.now at width result }
{
    Reader::new(s, at).number(width)
}

// How many octets are left from a place on; past the end none.
pub fn left_at(s: &[u8], at: usize) -> usize
    ensures { result ≡ length s.now - at }
{
    Reader::new(s, at).left()
}

// The octets of a span, as the part of the slice where they stand; of a span that reaches past the slice, those that are there.
pub fn part(s: &[u8], start: usize, len: usize) -> &[u8]
    ensures { result.now ≡ take len (drop start s.now) }
{
    Reader::new(s, start).part(len)
}

// A length and as many octets: where those octets stand.
pub fn read_data(s: &[u8], at: usize) -> Reading<Span>
    ensures { DataAt s.now at result }
{
    let Taken {
        value: len,
        next: start,
    } = read_length(s, at)?;
    if left_at(s, start) < len {
        return Err(Fault::Other);
    }
    Ok(Taken {
        value: Span { start, len },
        next: start + len,
    })
}

// How many octets a length takes.
#[tactic(auto, unfolding(crate::specs::Length::encode_length))]
pub fn length_size(n: usize) -> usize
    ensures { (result ≡ length (encode_length n)) × (result ≤ 2) }
{
    if n < 128 { 1 } else { 2 }
}

// ---- lists, whose entries are read one by one

// How one entry of a list is read.
pub trait Entry: Copy {
    type Value: Copy;

    ghost Shown: { Type 0 };

    ghost layout: { Self → Layout Shown };

    ghost shown: { Self → List ℕ → Self.Value → Shown };

    fn read(self, s: &[u8], at: usize) -> Reading<Self::Value>
        ensures { Reads ((layout self).get (drop at s.now)) (shown self s.now) (λ t. t.next ≤ length s.now) s.now result };
}

// A list: its count, and its entries, gone over one by one.
pub fn read_list<E: Entry>(s: &[u8], at: usize, entry: E) -> Reading<Entries>
    ensures { ListAt (E.layout entry) s.now at result }
{
    let Taken {
        value: count,
        next: start,
    } = read_length(s, at)?;
    let mut place = start;
    for _ in 0..count {
        place = entry.read(s, place)?.next;
    }
    Ok(Taken {
        value: Entries { start, count },
        next: place,
    })
}

// ---- fields that are written: whole or not at all

// Copies octets to a place, if the area has room for all of them.
pub fn copy(out: &mut [u8], at: usize, src: &[u8]) -> usize
    ensures { Laid out.old at src.now out.new result }
{
    let n = src.len();
    if out.len() < at {
        return at;
    }
    if out.len() - at < n {
        return at;
    }
    // A loop and no copy_from_slice, which is a call of C's memmove: the archive calls no more of its host than memset.
    for i in 0..n {
        out[at + i] = src[i];
    }
    at + n
}

// Writes a length, if it has a form and the area has room for it, and says where the next field starts.
pub fn write_length(out: &mut [u8], at: usize, n: usize) -> usize
    ensures { Laid out.old at (field_octets size n) out.new result }
{
    if 16384 <= n {
        return at;
    }
    if out.len() < at {
        return at;
    }
    if out.len() - at < length_size(n) {
        return at;
    }
    if n < 128 {
        out[at] = n as u8;
        return at + 1;
    }
    let i = at + 1;
    out[at] = (128 + n / 256) as u8;
    out[i] = (n % 256) as u8;
    at + 2
}

// Writes the low octets of a number, as many as its field has, if the area has room for all of them.
pub fn write_number(out: &mut [u8], at: usize, width: Width, x: u64) -> usize
    ensures { Laid out.old at (octets (width_of width) x) out.new result }
{
    let n = octets_of(width);
    if out.len() < at {
        return at;
    }
    if out.len() - at < n {
        return at;
    }
    let eight = x.to_be_bytes();
    out[at..at + n].copy_from_slice(&eight[8 - n..]);
    at + n
}

// ---- bits of the version octet and of a tag

pub fn version_of(octet: u8) -> u8
    ensures { result ≡ version_part octet }
{
    octet >> 4
}

pub fn fill_of(octet: u8) -> u8
    ensures { result ≡ fill_part octet }
{
    octet & 15
}

// A tag with the six ignored bits of its first octet zero: tags are compared so.
pub fn bare_tag(tag: u64) -> u64
    ensures { result ≡ bare tag }
{
    tag & 0xc0ff_ffff_ffff_ffff
}

// ---- the frame around a body

// Why no octet was written into an area.
#[derive(Clone, Copy, PartialEq, Eq)]
pub enum Unwritten {
    // The message may not be written: 16.
    Refused,
    // The area is too short for it: 300.
    NoRoom,
}

// What became of octets that were to be written into an area: how many stand there.
pub type Written = Result<usize, Unwritten>;

// Writes what stands before a body of that many octets, if the message may be written and the area has room for the whole of it; the body starts behind it.
// The operation type is its number: document 01 names a match on it, with ranges.
pub fn open_message(out: &mut [u8], version: u8, kind: u8, body: usize) -> Written
    ensures { Does (opened version kind body out.old) result out.new }
{
    if 15 < version {
        return Err(Unwritten::Refused);
    }
    if 2042 < body {
        return Err(Unwritten::Refused); // with what stands before it, over 2,048 octets
    }
    let start = 4 + length_size(body);
    if out.len() < start + body {
        return Err(Unwritten::NoRoom);
    }
    out[0] = version << 4;
    out[1] = 1;
    out[2] = kind;
    out[3] = 0;
    write_length(out, 4, body);
    Ok(start)
}

// The version and the operation type that a message begins with.
#[derive(Clone, Copy)]
pub struct Heading {
    pub version: u8,
    pub kind: u8,
}

pub fn read_heading(s: &[u8]) -> Result<Heading, Fault>
    ensures { HeadingOf s.now result }
{
    let [first, 1, kind, ..] = *s else {
        return Err(Fault::Other);
    };
    if fill_of(first) != 0 {
        return Err(Fault::Other);
    }
    Ok(Heading {
        version: version_of(first),
        kind,
    })
}

// The security profile and the length of the body, behind the operation type: where the body starts. It is exactly the rest.
pub fn read_enclosed(s: &[u8]) -> Result<usize, Fault>
    ensures { EnclosedOf s.now result }
{
    let [_, _, _, 0, ..] = *s else {
        return Err(Fault::Other);
    };
    let Taken { value: n, next } = read_length(s, 4)?;
    if left_at(s, next) != n {
        return Err(Fault::Other);
    }
    Ok(next)
}
