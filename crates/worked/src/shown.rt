// Shows octets, and what their reader says that they are: the case, its tags and passwords, data as the part of the message where it stands, and the entries of a
// list, each read where the one before it ends. Text goes to standard output; no contract can speak of it.
use answers::{Given, Reply};
use octets::{Access, Entries, Form, Span, Taken};
use requests::{Operation, Request};
use std::io;

// Of longer data and lists, so many octets and entries are shown.
const SHOWN: usize = 2;

pub(crate) fn text(rt: &impl Print, s: &str) -> io::Result<()> {
    rt.print(s)
}

pub(crate) fn number(rt: &impl Print, n: usize) -> io::Result<()> {
    print!(rt; " {n}")
}

// Octets in capital hexadecimal.
pub(crate) fn hexadecimal(rt: &impl Print, s: &[u8]) -> io::Result<()> {
    for octet in s {
        print!(rt; "{octet:02X}")?;
    }
    Ok(())
}

// A tag or a password.
fn word(rt: &impl Print, x: u64) -> io::Result<()> {
    print!(rt; " {x:016X}")
}

// ---- parts of a message

fn operation(rt: &impl Print, name: &str, form: Form) -> io::Result<()> {
    text(rt, name)?;
    match form {
        Form::Plain => text(rt, " plain"),
        Form::Password => text(rt, " password"),
    }
}

// A tag, and its password if there is one.
fn key(rt: &impl Print, name: &str, access: Access, tag: u64) -> io::Result<()> {
    text(rt, name)?;
    word(rt, tag)?;
    if let Access::Password(password) = access {
        word(rt, password)?;
    }
    Ok(())
}

// How many octets or entries there are, and where they start.
fn place(rt: &impl Print, count: usize, start: usize) -> io::Result<()> {
    print!(rt; " {count} at {start}:")
}

// Data, as the part of the message where it stands.
fn held(rt: &impl Print, s: &[u8], span: Span) -> io::Result<()> {
    place(rt, span.len, span.start)?;
    hexadecimal(rt, octets::part(s, span.start, span.len.min(SHOWN)))
}

// ---- the entries of a list: each is shown, and tells where the next one starts; where none stands, the same place

fn next_key(rt: &impl Print, s: &[u8], at: usize, form: Form) -> io::Result<usize> {
    let Ok(Taken { value, next }) = tags::read_key(s, at, form) else {
        return Ok(at);
    };
    key(rt, "", value.access, value.tag)?;
    Ok(next)
}

fn next_memory(rt: &impl Print, s: &[u8], at: usize, form: Form) -> io::Result<usize> {
    let Ok(Taken { value, next }) = tags::read_memory(s, at, form) else {
        return Ok(at);
    };
    key(rt, "", value.access, value.tag)?;
    held(rt, s, value.span)?;
    Ok(next)
}

fn next_resource(rt: &impl Print, s: &[u8], at: usize) -> io::Result<usize> {
    let Ok(Taken { value, next }) = resources::read_resource(s, at) else {
        return Ok(at);
    };
    word(rt, value.tag)?;
    print!(rt; " {} {} {}", value.mode, value.held, value.size)?;
    Ok(next)
}

// A list: its operation, where it stands, and the first of its entries, each shown by `next`.
fn list<F: Fn(usize) -> io::Result<usize>>(
    rt: &impl Print,
    name: &str,
    form: Form,
    entries: Entries,
    next: F,
) -> io::Result<()>
    requires { F.IsAlwaysCallable next }
{
    operation(rt, name, form)?;
    place(rt, entries.count, entries.start)?;
    let mut at = entries.start;
    for _ in 0..entries.count.min(SHOWN) {
        at = next(at)?;
    }
    Ok(())
}

// ---- requests

fn request_body(rt: &impl Print, s: &[u8], what: Operation) -> io::Result<()> {
    match what {
        Operation::Resources(entries) => {
            let plain = Form::Plain;
            list(rt, " resources", plain, entries, |at| {
                next_key(rt, s, at, plain)
            })
        }
        Operation::Allocate(allocation) => {
            key(rt, " allocate", allocation.access, allocation.tag)?;
            print!(rt; " {} {}", allocation.mode, allocation.size)?;
            held(rt, s, allocation.initial)
        }
        Operation::Free(access, tag) => key(rt, " free", access, tag),
        Operation::Read(access, tag) => key(rt, " read", access, tag),
        Operation::Write(access, tag, span) => {
            key(rt, " write", access, tag)?;
            held(rt, s, span)
        }
        Operation::BulkRead(form, entries) => {
            list(
                rt,
                " bulk-read",
                form,
                entries,
                |at| next_key(rt, s, at, form),
            )
        }
        Operation::BulkWrite(form, entries) => {
            list(rt, " bulk-write", form, entries, |at| {
                next_memory(rt, s, at, form)
            })
        }
    }
}

// A line: what octets are as a request, or 16.
pub(crate) fn request(rt: &impl Print, s: &[u8]) -> io::Result<()> {
    match requests::read_request(s) {
        Err(_) => text(rt, " 16")?,
        Ok(Request { version, operation }) => {
            print!(rt; " {version}")?;
            request_body(rt, s, operation)?;
        }
    }
    text(rt, "\n")
}

// ---- answers

// A tag that was dealt with, plain or with a password.
fn given(rt: &impl Print, name: &str, form: Form, tag: u64) -> io::Result<()> {
    operation(rt, name, form)?;
    word(rt, tag)
}

fn answer_body(rt: &impl Print, s: &[u8], what: Given) -> io::Result<()> {
    match what {
        Given::Resources(room, entries) => {
            print!(rt; " room {} {} {}", room.largest, room.tags, room.octets)?;
            print!(rt;
                " {} {} {}",
                room.volatile_tags, room.volatile_octets, room.entries
            )?;
            list(rt, " resources", Form::Plain, entries, |at| {
                next_resource(rt, s, at)
            })
        }
        Given::Allocate(form, tag) => given(rt, " allocate", form, tag),
        Given::Free(form, tag) => given(rt, " free", form, tag),
        Given::Read(form, tag, span) => {
            given(rt, " read", form, tag)?;
            held(rt, s, span)
        }
        Given::Write(form, tag) => given(rt, " write", form, tag),
        Given::BulkRead(form, entries) => {
            list(rt, " bulk-read", form, entries, |at| {
                next_memory(rt, s, at, Form::Plain)
            })
        }
        Given::BulkWrite(form, entries) => {
            list(rt, " bulk-write", form, entries, |at| {
                next_key(rt, s, at, Form::Plain)
            })
        }
    }
}

// A line: what octets are as an answer or a denial, or 16.
pub(crate) fn answer(rt: &impl Print, s: &[u8]) -> io::Result<()> {
    match answers::read_answer(s) {
        Err(_) => text(rt, " 16")?,
        Ok(
            Reply::Denied {
                version,
                status,
                supplement,
            },
        ) => {
            print!(rt; " {version} denied {status}")?;
            held(rt, s, supplement)?;
        }
        Ok(Reply::Accepted { version, given }) => {
            print!(rt; " {version}")?;
            answer_body(rt, s, given)?;
        }
    }
    text(rt, "\n")
}
