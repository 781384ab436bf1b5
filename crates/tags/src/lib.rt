// The entries that name a tag: a tag, and memory data, each plain or with a password. Read in place; written into a lent area, alone or as the body of a message.
// Rules: document 01, 'Messages'; layouts in specs/Entry. On octets, by its contracts.
#![tactic(auto)]

ghost use Rattle.std.specs.Prelude.{◌≡◌, true, ◌≤◌};
ghost use Rattle.octets.specs.Layout.{field_octets};
ghost use Rattle.octets.specs.Area.{Laid, Does};
ghost use Rattle.octets.specs.Frame.{sent};
ghost use Rattle.tags.specs.Entry.{form_of, lock_size, lock, key, memory};
ghost use Rattle.tags.specs.View.{LockAt, KeyAt, MemoryAt};

use octets::{Access, Form, Reading, Span, Taken, Unwritten, Width, Written};

// ---- a password, where the form has one

// The password at a place, or none in a plain message. A place past the octets counts as their end.
pub fn read_lock(s: &[u8], at: usize, form: Form) -> Reading<Access>
    ensures { LockAt s.now at form result }
{
    match form {
        Form::Plain => Ok(Taken {
            value: Access::Plain,
            next: at.min(s.len()),
        }),
        Form::Password => {
            let Taken { value, next } = octets::read_number(s, at, Width::Eight)?;
            Ok(Taken {
                value: Access::Password(value),
                next,
            })
        }
    }
}

// Writes a password, if there is one and the area has room for it.
pub fn write_lock(out: &mut [u8], at: usize, access: Access) -> usize
    ensures { Laid out.old at ((lock (form_of access)).put access) out.new result }
{
    match access {
        Access::Plain => at,
        Access::Password(password) => octets::write_number(out, at, Width::Eight, password),
    }
}

// How many octets a password takes.
pub fn lock_size(form: Form) -> usize
    ensures { (result ≡ lock_size form) × (result ≤ 8) }
{
    match form {
        Form::Plain => 0,
        Form::Password => 8,
    }
}

// The form that an access is of; a password fits its field, which a `From` would not say.
pub fn form_of(access: Access) -> Form
    ensures { (result ≡ form_of access) × ((lock result).fits access ≡ true) }
{
    match access {
        Access::Plain => Form::Plain,
        Access::Password(_password) => Form::Password,
    }
}

// ---- a tag

// A tag, and how the right to it is shown.
#[derive(Clone, Copy)]
pub struct Key {
    pub access: Access,
    pub tag: u64,
}

// A tag, and its password where the form has one. An entry of a list of tags is read so, too.
pub fn read_key(s: &[u8], at: usize, form: Form) -> Reading<Key>
    ensures { KeyAt s.now at form result }
{
    let Taken { value: tag, next } = octets::read_number(s, at, Width::Eight)?;
    let Taken {
        value: access,
        next: end,
    } = read_lock(s, next, form)?;
    Ok(Taken {
        value: Key { access, tag },
        next: end,
    })
}

// Writes a tag, and its password if there is one, if the area has room for both.
// Here and in put_memory each field's place is computed, not what the writer before it returns, which hangs on a test of room.
// The writers take a tag and its access apart: a Key would be put together by each caller and taken apart here.
pub fn put_key(out: &mut [u8], at: usize, access: Access, tag: u64) -> usize
    ensures { Laid out.old at ((key (form_of access)).put (tag, access)) out.new result }
{
    let size = 8 + lock_size(form_of(access));
    if out.len() < at {
        return at;
    }
    if out.len() - at < size {
        return at;
    }
    octets::write_number(out, at, Width::Eight, tag);
    write_lock(out, at + 8, access);
    at + size
}

// A message whose body is a tag, or a tag and its password.
pub fn write_key(out: &mut [u8], version: u8, kind: u8, access: Access, tag: u64) -> Written
    ensures { Does (sent (key (form_of access)) version kind (tag, access) out.old) result out.new }
{
    let body = 8 + lock_size(form_of(access));
    let at = octets::open_message(out, version, kind, body)?;
    Ok(put_key(out, at, access, tag))
}

// ---- memory data

// A tag, how the right to it is shown, and where its data stands.
#[derive(Clone, Copy)]
pub struct Memory {
    pub access: Access,
    pub tag: u64,
    pub span: Span,
}

// A tag, its password where the form has one, and data: where the data stands. An entry of a list of memory data is read so, too.
pub fn read_memory(s: &[u8], at: usize, form: Form) -> Reading<Memory>
    ensures { MemoryAt s.now at form result }
{
    let Taken { value: key, next } = read_key(s, at, form)?;
    let Taken {
        value: span,
        next: end,
    } = octets::read_data(s, next)?;
    Ok(Taken {
        value: Memory {
            access: key.access,
            tag: key.tag,
            span,
        },
        next: end,
    })
}

// Writes memory data, if its length has a form and the area has room for all of it.
pub fn put_memory(out: &mut [u8], at: usize, access: Access, tag: u64, src: &[u8]) -> usize
    ensures { Laid out.old at (field_octets (memory (form_of access)) ((tag, access), src.now)) out.new result }
{
    let n = src.len();
    if 16384 <= n {
        return at;
    }
    let size = 8 + lock_size(form_of(access)) + octets::length_size(n) + n;
    if out.len() < at {
        return at;
    }
    if out.len() - at < size {
        return at;
    }
    let named = at + 8 + lock_size(form_of(access));
    let sized = named + octets::length_size(n);
    put_key(out, at, access, tag);
    octets::write_length(out, named, n);
    octets::copy(out, sized, src);
    at + size
}

// A message whose body is memory data.
pub fn write_memory(
    out: &mut [u8],
    version: u8,
    kind: u8,
    access: Access,
    tag: u64,
    src: &[u8],
) -> Written
    ensures { Does (sent (memory (form_of access)) version kind ((tag, access), src.now) out.old) result out.new }
{
    let n = src.len();
    if 2048 < n {
        return Err(Unwritten::Refused);
    }
    let body = 8 + lock_size(form_of(access)) + octets::length_size(n) + n;
    let at = octets::open_message(out, version, kind, body)?;
    Ok(put_memory(out, at, access, tag, src))
}
