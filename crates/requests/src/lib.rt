// The requests of document 01, 'Messages': each operation's body read in place, and each written, plain or with passwords. Reader and writer stand side by side.
// The main statement: read_request tells of any octets what specs/Request says they are, and the writers write what it reads back. On octets, tags, lists and
// resources, by their contracts.
#![tactic(auto)]

ghost use Rattle.std.specs.Prelude.{[], ◌≡◌, ◌+◌, ◌<◌, ◌≤◌, drop};
ghost use Rattle.octets.specs.Reading.{at_end};
ghost use Rattle.octets.specs.Area.{Does};
ghost use Rattle.octets.specs.Frame.{sent};
ghost use Rattle.tags.specs.Entry.{form_of, key};
ghost use Rattle.tags.specs.View.{keyed};
ghost use Rattle.lists.specs.Handed.{keys_of};
ghost use Rattle.requests.specs.Command.{form_number};
ghost use Rattle.requests.specs.Command as c;
ghost use Rattle.requests.specs.Request as b;
ghost use Rattle.requests.specs.Request.{request, request_sent, bulk_read_sent, bulk_write_sent};
ghost use Rattle.requests.specs.View.{whole_in, DecodedAs, DecodedAt, Understood};

use octets::{Access, Entries, Fault, Form, Heading, Span, Taken, Written};
use resources::Allocation;
use tags::Key;

// What a request asks. A single operation carries its access, as document 01 names it; in a bulk list each entry has
// its own, and the operation says whether the entries have passwords.
#[derive(Clone, Copy)]
pub enum Operation {
    // Tags, always plain.
    Resources(Entries),
    Allocate(Allocation),
    Free(Access, u64),
    Read(Access, u64),
    Write(Access, u64, Span),
    BulkRead(Form, Entries),
    BulkWrite(Form, Entries),
}

#[derive(Clone, Copy)]
pub struct Request {
    pub version: u8,
    pub operation: Operation,
}

// The request that octets are.
pub fn read_request(s: &[u8]) -> Result<Request, Fault>
    ensures { Understood s.now result }
{
    if 2048 < s.len() {
        return Err(Fault::Other);
    }
    let Heading { version, kind } = octets::read_heading(s)?;
    let at = octets::read_enclosed(s)?;
    let operation = read_body(s, at, kind)?;
    Ok(Request { version, operation })
}

// The body of an operation type, from a place to the last octet. A single operation is read by one call, which the
// compiler puts here, so that what it returns is not stored and copied; a list by two, in each of which the form is
// known: its entries are gone over quicker.
fn read_body(s: &[u8], at: usize, kind: u8) -> Result<Operation, Fault>
    ensures { DecodedAt kind s.now at result }
{
    let form = form_at(kind);
    match kind {
        0 => read_resources(s, at),
        1 | 65 => read_allocate(s, at, form),
        2 | 66 => {
            let key = read_tag(s, at, form)?;
            Ok(Operation::Free(key.access, key.tag))
        }
        3 | 67 => {
            let key = read_tag(s, at, form)?;
            Ok(Operation::Read(key.access, key.tag))
        }
        4 | 68 => read_write(s, at, form),
        5 => read_bulk_read(s, at, Form::Plain),
        6 => read_bulk_write(s, at, Form::Plain),
        69 => read_bulk_read(s, at, Form::Password),
        70 => read_bulk_write(s, at, Form::Password),
        7..=64 | 71..=255 => Err(Fault::Other),
    }
}

// Whether an operation type is one with a password.
fn form_at(kind: u8) -> Form
    ensures { result ≡ c.form_at kind }
{
    if kind < 65 {
        Form::Plain
    } else {
        Form::Password
    }
}

// What an operation type with passwords is more than the plain one.
pub fn form_number(form: Form) -> u8
    ensures { (result ≡ form_number form) × (result ≤ 64) }
{
    match form {
        Form::Plain => 0,
        Form::Password => 64,
    }
}

// ---- resource information

fn read_resources(s: &[u8], at: usize) -> Result<Operation, Fault>
    ensures { DecodedAs c.resource_information Form.Plain s.now at result }
{
    let list = lists::read_keys(s, at, Form::Plain)?.to_end(s)?;
    Ok(Operation::Resources(list))
}

// Asks for resource information of tags.
// Writers take a tag and its access apart, as `Operation` has them, and lists as slices side by side, as C hands them over.
pub fn write_resources(out: &mut [u8], version: u8, tags: &[u64]) -> Written
    ensures { Does (request_sent (request version Form.Plain (b.resource_information (keys_of Form.Plain tags.now []))) out.old) result out.new }
{
    lists::write_keys(out, version, 0, Form::Plain, tags, &tags[..0])
}

// ---- allocate

fn read_allocate(s: &[u8], at: usize, form: Form) -> Result<Operation, Fault>
    ensures { DecodedAs c.allocate form s.now at result }
{
    let allocation = resources::read_allocation(s, at, form)?.to_end(s)?;
    Ok(Operation::Allocate(allocation))
}

// Asks for an area of that size and mode; the initial value is sent along.
pub fn write_allocate(
    out: &mut [u8],
    version: u8,
    access: Access,
    tag: u64,
    mode: u8,
    size: u32,
    initial: &[u8],
) -> Written
    ensures { Does (request_sent (request version (form_of access) (b.allocate (record { tag = tag; mode = mode; size = size; access = access; initial = initial.now }))) out.old) result out.new }
{
    let kind = 1 + form_number(tags::form_of(access));
    resources::write_allocation(out, version, kind, access, tag, mode, size, initial)
}

// ---- free and read

// A tag and how the right to it is shown, from a place to the last octet.
fn read_tag(s: &[u8], at: usize, form: Form) -> Result<Key, Fault>
    ensures { whole_in keyed result ≡ at_end ((key form).get (drop at s.now)) }
{
    tags::read_key(s, at, form)?.to_end(s)
}

// A tag and how the right to it is shown, under a plain operation type or the one with passwords, which is 64 more.
// A call for each form, as in write_write: in it the compiler knows every octet before the tag, and stores them at once.
fn write_tag(out: &mut [u8], version: u8, plain: u8, access: Access, tag: u64) -> Written
    requires { plain < 64 }
    ensures { Does (sent (key (form_of access)) version (plain + form_number (form_of access)) (tag, access) out.old) result out.new }
{
    match access {
        Access::Plain => tags::write_key(out, version, plain, access, tag),
        Access::Password(_) => tags::write_key(out, version, plain + 64, access, tag),
    }
}

pub fn write_free(out: &mut [u8], version: u8, access: Access, tag: u64) -> Written
    ensures { Does (request_sent (request version (form_of access) (b.free (tag, access))) out.old) result out.new }
{
    write_tag(out, version, 2, access, tag)
}

pub fn write_read(out: &mut [u8], version: u8, access: Access, tag: u64) -> Written
    ensures { Does (request_sent (request version (form_of access) (b.read (tag, access))) out.old) result out.new }
{
    write_tag(out, version, 3, access, tag)
}

// ---- write

// Memory data, read by its parts: tags::read_memory is too large to be inlined, and what it returns would be stored
// and copied on.
fn read_write(s: &[u8], at: usize, form: Form) -> Result<Operation, Fault>
    ensures { DecodedAs c.write form s.now at result }
{
    let Taken { value: key, next } = tags::read_key(s, at, form)?;
    let span = octets::read_data(s, next)?.to_end(s)?;
    Ok(Operation::Write(key.access, key.tag, span))
}

pub fn write_write(out: &mut [u8], version: u8, access: Access, tag: u64, src: &[u8]) -> Written
    ensures { Does (request_sent (request version (form_of access) (b.write ((tag, access), src.now))) out.old) result out.new }
{
    match access {
        Access::Plain => tags::write_memory(out, version, 4, access, tag, src),
        Access::Password(_) => tags::write_memory(out, version, 68, access, tag, src),
    }
}

// ---- bulk read

fn read_bulk_read(s: &[u8], at: usize, form: Form) -> Result<Operation, Fault>
    ensures { DecodedAs c.bulk_read form s.now at result }
{
    let list = lists::read_keys(s, at, form)?.to_end(s)?;
    Ok(Operation::BulkRead(form, list))
}

// A list of any number of tags, with a password each or plain: then no passwords are handed over. Where they are not
// one for every tag, 16.
pub fn write_bulk_read(
    out: &mut [u8],
    version: u8,
    form: Form,
    tags: &[u64],
    passwords: &[u64],
) -> Written
    ensures { Does (bulk_read_sent form version tags.now passwords.now out.old) result out.new }
{
    let kind = 5 + form_number(form);
    lists::write_keys(out, version, kind, form, tags, passwords)
}

// ---- bulk write

fn read_bulk_write(s: &[u8], at: usize, form: Form) -> Result<Operation, Fault>
    ensures { DecodedAs c.bulk_write form s.now at result }
{
    let list = lists::read_memories(s, at, form)?.to_end(s)?;
    Ok(Operation::BulkWrite(form, list))
}

// A list of any number of tags with data, and a password each or plain. The data of entry i is the part of `src` that
// starts at start i and has length i. Where the slices are not of one length, or a part does not lie within `src`, 16.
pub fn write_bulk_write(
    out: &mut [u8],
    version: u8,
    form: Form,
    tags: &[u64],
    passwords: &[u64],
    starts: &[usize],
    lengths: &[usize],
    src: &[u8],
) -> Written
    ensures { Does (bulk_write_sent form version tags.now passwords.now starts.now lengths.now src.now out.old) result out.new }
{
    let kind = 6 + form_number(form);
    lists::write_memories(
        out, version, kind, form, tags, passwords, starts, lengths, src,
    )
}
