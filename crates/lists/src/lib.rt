// Lists of tags and of memory data, plain or with passwords: read in place, and written from slices side by side, as the body of a message.
// Rules: document 01, 'Messages'; what slices describe in specs/Handed. On octets and tags, by their contracts.
// The writers and what they call stand in their callers by a hint: calls within calls took more stack, and what a caller knows of its slices saves tests.
#![tactic(auto)]

ghost use Rattle.std.specs.Prelude.{◌≡◌, true, ◌+◌, ◌≤◌, length};
ghost use Rattle.octets.specs.Layout.{put_all, fit_all};
ghost use Rattle.octets.specs.Area.{Does, Wrote};
ghost use Rattle.tags.specs.Entry.{Held, key, memory};
ghost use Rattle.octets.specs.View.{ListAt};
ghost use Rattle.tags.specs.View.{held};
ghost use Rattle.lists.specs.Handed.{keys_sent, memories_sent};
ghost use Rattle.lists.specs.View.{keys_in, memories_in, MeasuredIn};

mod slices;

use octets::{Entries, Entry, Fault, Form, Reading, Taken, Unwritten, Written};
use slices::{Keys, Memories};
use tags::Memory;

// A list of tags: every entry is of the same length, so the list is read without going over it.
pub fn read_keys(s: &[u8], at: usize, form: Form) -> Reading<Entries>
    ensures { ListAt (key form) s.now at result }
{
    let Taken {
        value: count,
        next: start,
    } = octets::read_length(s, at)?;
    let size = count * (8 + tags::lock_size(form));
    if s.len() - start < size {
        return Err(Fault::Other);
    }
    Ok(Taken {
        value: Entries { start, count },
        next: start + size,
    })
}

// An entry of a list of memory data.
#[derive(Clone, Copy)]
struct MemoryEntry {
    form: Form,
}

impl Entry for MemoryEntry {
    type Value = Memory;

    ghost Shown = { Held };

    ghost layout = { λ e. memory e.form };

    ghost shown = { λ _. held };

    fn read(self, s: &[u8], at: usize) -> Reading<Memory> {
        tags::read_memory(s, at, self.form)
    }
}

// A list of memory data, gone over entry by entry.
pub fn read_memories(s: &[u8], at: usize, form: Form) -> Reading<Entries>
    ensures { ListAt (memory form) s.now at result }
{
    octets::read_list(s, at, MemoryEntry { form })
}

#[inline(always)]
fn put_keys(out: &mut [u8], at: usize, keys: Keys) -> usize
    requires { at + length (put_all (key keys.form) (keys_in keys)) ≤ length out.old }
    ensures { Wrote out.old at (put_all (key keys.entry.form) (keys_in keys.entry)) out.new result }
{
    let mut next = at;
    for i in 0..keys.tags.len() {
        next = tags::put_key(out, next, keys.access(i), keys.tags[i]);
    }
    next
}

// A message whose body is a list of tags: entry i is tag i, with password i where the form has passwords.
#[inline(always)]
pub fn write_keys(
    out: &mut [u8],
    version: u8,
    kind: u8,
    form: Form,
    tags: &[u64],
    passwords: &[u64],
) -> Written
    ensures { Does (keys_sent form version kind tags.now passwords.now out.old) result out.new }
{
    let keys = Keys::new(form, tags, passwords)?;
    let n = tags.len();
    if 2048 < n {
        return Err(Unwritten::Refused);
    }
    let body = octets::length_size(n) + n * (8 + tags::lock_size(form));
    let at = octets::open_message(out, version, kind, body)?;
    let first = octets::write_length(out, at, n);
    Ok(put_keys(out, first, keys))
}

// How many octets the entries take; none where a part does not lie within the octets, or where it is more than 2,048.
#[inline(always)]
fn sum_memories(memories: Memories) -> Option<usize>
    ensures { MeasuredIn memories.entry result }
{
    let mut size = 0;
    for i in 0..memories.keys.tags.len() {
        let rest = memories.src.get(memories.starts[i]..)?;
        let piece = rest.get(..memories.lengths[i])?;
        let n = piece.len();
        if 2048 < n {
            return None;
        }
        size += 8 + tags::lock_size(memories.keys.form) + octets::length_size(n) + n;
        if 2048 < size {
            return None;
        }
    }
    Some(size)
}

#[inline(always)]
fn put_memories(out: &mut [u8], at: usize, memories: Memories) -> usize
    requires { (fit_all (memory memories.keys.form) (memories_in memories) ≡ true)
        × (at + length (put_all (memory memories.keys.form) (memories_in memories)) ≤ length out.old) }
    ensures { Wrote out.old at (put_all (memory memories.entry.keys.form) (memories_in memories.entry)) out.new result }
{
    let keys = memories.keys;
    let mut next = at;
    for i in 0..keys.tags.len() {
        let piece = octets::part(memories.src, memories.starts[i], memories.lengths[i]);
        next = tags::put_memory(out, next, keys.access(i), keys.tags[i], piece);
    }
    next
}

// A message whose body is a list of memory data: entry i is tag i, with password i where the form has passwords, and the part of `src` that starts at start i
// and has length i.
#[inline(always)]
pub fn write_memories(
    out: &mut [u8],
    version: u8,
    kind: u8,
    form: Form,
    tags: &[u64],
    passwords: &[u64],
    starts: &[usize],
    lengths: &[usize],
    src: &[u8],
) -> Written
    ensures { Does (memories_sent form version kind tags.now passwords.now starts.now lengths.now src.now out.old) result out.new }
{
    let keys = Keys::new(form, tags, passwords)?;
    let memories = Memories::new(keys, starts, lengths, src)?;
    let size = sum_memories(memories).ok_or(Unwritten::Refused)?;
    let n = tags.len();
    let at = octets::open_message(out, version, kind, octets::length_size(n) + size)?;
    let first = octets::write_length(out, at, n);
    Ok(put_memories(out, first, memories))
}
