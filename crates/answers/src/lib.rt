// The answers of document 01, 'Messages', and the denial: each body read in place, and each written. Reader and writer stand side by side.
// The main statement: read_answer tells of any octets what specs/Answer says they are, and the writers write what it reads back. On octets, tags, lists and
// resources, by their contracts; the table of operations is that of requests.
#![tactic(auto)]

ghost use Rattle.std.specs.Prelude.{[], ◌≡◌, ◌-◌, true, drop};
ghost use Rattle.octets.specs.Reading.{at_end};
ghost use Rattle.octets.specs.Area.{Does};
ghost use Rattle.tags.specs.Entry.{key};
ghost use Rattle.lists.specs.Handed.{keys_of};
ghost use Rattle.requests.specs.Command as c;
ghost use Rattle.requests.specs.View.{whole_in};
ghost use Rattle.answers.specs.Denial.{denial_sent};
ghost use Rattle.answers.specs.Answer as b;
ghost use Rattle.answers.specs.Answer.{is_denial, answer, accepted, answer_sent};
ghost use Rattle.answers.specs.Answer.{resource_information_sent, bulk_read_sent};
ghost use Rattle.answers.specs.View.{plain_tag, DecodedAs, DecodedAt, DenialOf, Understood};

use octets::{Access, Entries, Fault, Form, Heading, Span, Taken, Unwritten, Width, Written};
use requests::form_number;
use resources::Room;

// What an accepted request was answered with. Each says whether the request had passwords; the answer itself has none.
#[derive(Clone, Copy)]
pub enum Given {
    // Always to a plain request.
    Resources(Room, Entries),
    Allocate(Form, u64),
    Free(Form, u64),
    Read(Form, u64, Span),
    Write(Form, u64),
    BulkRead(Form, Entries),
    BulkWrite(Form, Entries),
}

#[derive(Clone, Copy)]
pub enum Reply {
    Accepted {
        version: u8,
        given: Given,
    },
    Denied {
        version: u8,
        status: u8,
        supplement: Span,
    },
}

// The answer or denial that octets are.
pub fn read_answer(s: &[u8]) -> Result<Reply, Fault>
    ensures { Understood s.now result }
{
    if 2048 < s.len() {
        return Err(Fault::Other);
    }
    if is_denial(s) {
        return read_denial(s);
    }
    let Heading { version, kind } = octets::read_heading(s)?;
    let at = octets::read_enclosed(s)?;
    let given = read_body(s, at, kind)?;
    Ok(Reply::Accepted { version, given })
}

// The body of an answer's type, from a place to the last octet.
fn read_body(s: &[u8], at: usize, kind: u8) -> Result<Given, Fault>
    ensures { DecodedAt kind s.now at result }
{
    let form = form_at(kind);
    match kind {
        128 => read_resources(s, at),
        129 | 193 => Ok(Given::Allocate(form, read_tag(s, at)?)),
        130 | 194 => Ok(Given::Free(form, read_tag(s, at)?)),
        131 | 195 => read_read(s, at, form),
        132 | 196 => Ok(Given::Write(form, read_tag(s, at)?)),
        133 | 197 => read_bulk_read(s, at, form),
        134 | 198 => read_bulk_write(s, at, form),
        0..=127 | 135..=192 | 199..=255 => Err(Fault::Other),
    }
}

// Whether an answer's type is that of a request with a password.
fn form_at(kind: u8) -> Form
    ensures { result ≡ c.form_at (kind - 128) }
{
    if kind < 193 {
        Form::Plain
    } else {
        Form::Password
    }
}

// ---- the denial

// Whether octets are a denial or nothing: their second is 255.
fn is_denial(s: &[u8]) -> bool
    ensures { result ≡ is_denial s.now }
{
    matches!(*s, [_, 255, ..])
}

// The denial that octets are.
fn read_denial(s: &[u8]) -> Result<Reply, Fault>
    requires { is_denial s.now ≡ true }
    ensures { DenialOf s.now result }
{
    let [first, _, ..] = *s else {
        return Err(Fault::Other);
    };
    if octets::fill_of(first) != 0 {
        return Err(Fault::Other);
    }
    let Taken { value, next } = octets::read_number(s, 2, Width::One)?;
    let supplement = octets::read_data(s, next)?.to_end(s)?;
    if 127 < supplement.len {
        return Err(Fault::Other);
    }
    Ok(Reply::Denied {
        version: octets::version_of(first),
        status: value as u8,
        supplement,
    })
}

// A denial with any status, so that it is a number, and a supplement of at most 127 octets.
pub fn write_denial(out: &mut [u8], version: u8, status: u8, supplement: &[u8]) -> Written
    ensures { Does (denial_sent (record { version = version; status = status; supplement = supplement.now }) out.old) result out.new }
{
    if 15 < version {
        return Err(Unwritten::Refused);
    }
    let n = supplement.len();
    if 127 < n {
        return Err(Unwritten::Refused); // a supplement that is too long
    }
    if out.len() < 4 + n {
        return Err(Unwritten::NoRoom);
    }
    let at = octets::copy(out, 0, &[version << 4, 255, status, n as u8]);
    Ok(octets::copy(out, at, supplement))
}

// ---- resource information

fn read_resources(s: &[u8], at: usize) -> Result<Given, Fault>
    ensures { DecodedAs c.resource_information Form.Plain s.now at result }
{
    let told = resources::read_resources(s, at)?.to_end(s)?;
    Ok(Given::Resources(told.room, told.list))
}

// What a unit can take, and for each tag of the list its mode, data size and area size. Where the slices are not of
// one length, 16. So they stand side by side, here and in write_bulk_read.
pub fn write_resources(
    out: &mut [u8],
    version: u8,
    room: Room,
    tags: &[u64],
    modes: &[u8],
    held: &[u32],
    sizes: &[u32],
) -> Written
    ensures { Does (resource_information_sent version room tags.now modes.now held.now sizes.now out.old) result out.new }
{
    resources::write_resources(out, version, 128, room, tags, modes, held, sizes)
}

// ---- allocate, free and write

// A tag without a password, from a place to the last octet.
fn read_tag(s: &[u8], at: usize) -> Result<u64, Fault>
    ensures { whole_in plain_tag result ≡ at_end ((key Form.Plain).get (drop at s.now)) }
{
    Ok(tags::read_key(s, at, Form::Plain)?.to_end(s)?.tag)
}

pub fn write_allocate(out: &mut [u8], version: u8, form: Form, tag: u64) -> Written
    ensures { Does (answer_sent (accepted (answer version form (b.allocate (tag, Access.Plain)))) out.old) result out.new }
{
    let kind = 129 + form_number(form);
    tags::write_key(out, version, kind, Access::Plain, tag)
}

pub fn write_free(out: &mut [u8], version: u8, form: Form, tag: u64) -> Written
    ensures { Does (answer_sent (accepted (answer version form (b.free (tag, Access.Plain)))) out.old) result out.new }
{
    let kind = 130 + form_number(form);
    tags::write_key(out, version, kind, Access::Plain, tag)
}

pub fn write_write(out: &mut [u8], version: u8, form: Form, tag: u64) -> Written
    ensures { Does (answer_sent (accepted (answer version form (b.write (tag, Access.Plain)))) out.old) result out.new }
{
    let kind = 132 + form_number(form);
    tags::write_key(out, version, kind, Access::Plain, tag)
}

// ---- read

fn read_read(s: &[u8], at: usize, form: Form) -> Result<Given, Fault>
    ensures { DecodedAs c.read form s.now at result }
{
    let memory = tags::read_memory(s, at, Form::Plain)?.to_end(s)?;
    Ok(Given::Read(form, memory.tag, memory.span))
}

pub fn write_read(out: &mut [u8], version: u8, form: Form, tag: u64, src: &[u8]) -> Written
    ensures { Does (answer_sent (accepted (answer version form (b.read ((tag, Access.Plain), src.now)))) out.old) result out.new }
{
    let kind = 131 + form_number(form);
    tags::write_memory(out, version, kind, Access::Plain, tag, src)
}

// ---- bulk read

fn read_bulk_read(s: &[u8], at: usize, form: Form) -> Result<Given, Fault>
    ensures { DecodedAs c.bulk_read form s.now at result }
{
    let list = lists::read_memories(s, at, Form::Plain)?.to_end(s)?;
    Ok(Given::BulkRead(form, list))
}

// The tags that were read, each with its data: that of entry i is the part of `src` that starts at start i and has
// length i. Where the slices are not of one length, or a part does not lie within `src`, 16.
pub fn write_bulk_read(
    out: &mut [u8],
    version: u8,
    form: Form,
    tags: &[u64],
    starts: &[usize],
    lengths: &[usize],
    src: &[u8],
) -> Written
    ensures { Does (bulk_read_sent form version tags.now starts.now lengths.now src.now out.old) result out.new }
{
    let kind = 133 + form_number(form);
    lists::write_memories(
        out,
        version,
        kind,
        Form::Plain,
        tags,
        &tags[..0],
        starts,
        lengths,
        src,
    )
}

// ---- bulk write

fn read_bulk_write(s: &[u8], at: usize, form: Form) -> Result<Given, Fault>
    ensures { DecodedAs c.bulk_write form s.now at result }
{
    let list = lists::read_keys(s, at, Form::Plain)?.to_end(s)?;
    Ok(Given::BulkWrite(form, list))
}

// The tags that were written.
pub fn write_bulk_write(out: &mut [u8], version: u8, form: Form, tags: &[u64]) -> Written
    ensures { Does (answer_sent (accepted (answer version form (b.bulk_write (keys_of Form.Plain tags.now [])))) out.old) result out.new }
{
    let kind = 134 + form_number(form);
    lists::write_keys(out, version, kind, Form::Plain, tags, &tags[..0])
}
