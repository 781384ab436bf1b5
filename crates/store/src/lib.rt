// The store: a unit's tags and memory. Knows no message.
// Rules: document 01, 'Sizes', 'Tags', the per-operation rules of 'Denials and their order', and 'Lists' for the remaining numbers. A unit is a head by value, a table
// and a memory that its owner lends; what they stand for is `State` (specs/Model), and what each operation answers and does to it stands in specs/Steps.
// An operation asks nothing of its caller but that head, table and memory are what a start and the operations gave.
// The three stay apart: a type with `Sound` would ask it of `find`, `read`, `remainder`, `allocate` and `fit`.
#![tactic(auto)]

ghost use Rattle.std.specs.Prelude.{◌≡◌, List, ℕ, ◌+◌, ◌-◌, ◌*◌, ◌≤◌, ◌<◌, length, replicate};
ghost use Rattle.std.specs.Option.{ok_or};
ghost use Rattle.std.proofs.lemmas.List.Edits.{sets};
ghost use Rattle.octets.specs.Area.{laid};
ghost use Rattle.admission.specs.Denial.{verdict_of};
ghost use Rattle.admission.specs.Want.{is_tag};
ghost use Rattle.rows.specs.Image.{closed};
ghost use Rattle.rows.specs.Keyed.{without};
ghost use Rattle.rows.specs.Row.{words, slot_at, slot_tag, with_held};
ghost use Rattle.store.specs.Model.{State, tag_id, holding, first_kind, Shows, Sound};
ghost use Rattle.store.specs.Steps.{write_step, free_step, allocate_step, fit_step, registered, asked as asked_attributes, remainder as remainder_of};
ghost use Rattle.store.specs.Answers.{begun, started, Did, head_after, found, ReadOf};
ghost use Rattle.store.specs.Raw.{row_of, known_at, overwritten, head_with};

use admission::{Attributes, Denial, Head, Limits, Mode};
use octets::{Access, Port, Span};
use rows::Slot;

// ---- a unit

// A unit's table and memory; the rest of the unit is its head. Of the first kind: 32 tags, 8,192 octets for all areas together, areas of 1 to 1,024 octets, requests
// and answers of at most 2,048, lists of at most 16 entries.
#[derive(Clone, Copy)]
pub struct Unit {
    pub table: [u64; Unit::WORDS],
    pub pool: [u8; Unit::MEMORY],
}

impl Unit {
    pub const TAGS: usize = 32;

    pub const MEMORY: usize = 8192;

    pub const AREA: usize = 1024;

    pub const MESSAGE: usize = 2048;

    pub const LIST: usize = 16;

    pub const WORDS: usize = Slot::WORDS * Unit::TAGS;

    // A table without tags and a memory of zeros.
    pub fn new() -> Unit
        ensures { (result.table ≡ replicate (first_kind.tags * 8) 0) × (result.pool ≡ replicate first_kind.memory 0) }
    {
        Unit {
            table: [0; Unit::WORDS],
            pool: [0; Unit::MEMORY],
        }
    }

    // The head of a new unit, with its version and its two options. None is 301.
    #[tactic(auto, unfolding(crate::specs::Answers::started, crate::specs::Model::total))]
    pub fn start(version: u8, allocation: bool, passwords: bool) -> Option<Head>
        ensures { begun result ≡ started first_kind version allocation passwords }
    {
        if 15 < version {
            return None;
        }
        Some(Head {
            limits: Limits {
                tags: Unit::TAGS,
                memory: Unit::MEMORY,
                area: Unit::AREA,
                message: Unit::MESSAGE,
                list: Unit::LIST,
            },
            version,
            allocation,
            passwords,
            count: 0,
            used: 0,
        })
    }
}

// ---- operations that change nothing

// A registered tag: what is fixed of it, and its held length.
#[derive(Clone, Copy)]
pub struct Found {
    pub about: Attributes,
    pub held: usize,
}

// The tag, if it is registered.
pub fn find(head: Head, table: &[u64], tag: u64) -> Option<Found>
    ensures { (u : State) (pool : List ℕ) → Shows u head table.now pool → result ≡ found (registered u tag) }
{
    let i = rows::find_row(table, head.count, tag)?;
    let slot = rows::get_slot(table, i);
    Some(Found {
        about: slot.about,
        held: slot.held,
    })
}

#[derive(Clone, Copy)]
pub struct Remaining {
    pub tags: usize,
    pub octets: usize,
}

// How many tags and octets are left for gates to allocate.
pub fn remainder(head: Head) -> Remaining
    ensures { result ≡ remainder_of head }
{
    if head.allocation {
        Remaining {
            tags: head.limits.tags.saturating_sub(head.count),
            octets: head.limits.memory.saturating_sub(head.used),
        }
    } else {
        Remaining { tags: 0, octets: 0 }
    }
}

// The row of a tag that has to be registered.
fn registered_row(head: Head, table: &[u64], tag: u64) -> Result<usize, Denial>
    ensures { result ≡ ok_or (row_of head table.now tag) Denial.Tag }
{
    rows::find_row(table, head.count, tag).ok_or(Denial::Tag)
}

// What a tag holds: the place of the data in the memory.
pub fn read(head: Head, table: &[u64], tag: u64, port: Port, access: Access) -> Result<Span, Denial>
    ensures { (u : State) (pool : List ℕ) → Shows u head table.now pool → ReadOf u tag port access pool result }
{
    let row = registered_row(head, table, tag)?;
    let slot = rows::get_slot(table, row);
    admission::admit_read(slot.about, port, access)?;
    Ok(Span {
        start: slot.at,
        len: slot.held,
    })
}

// ---- write

// Zeros from `from` up to `to`. By `fill`, which stores the last octet apart, a free of 256 octets took a tenth longer.
fn clear(pool: &mut [u8], from: usize, to: usize)
    requires { to ≤ length pool.old }
    ensures { pool.new ≡ sets pool.old from (replicate (to - from) 0) }
{
    for i in from..to {
        pool[i] = 0;
    }
}

// The data comes to the start of an area, with zeros up to the end of what was held there, and its length into the row. Behind what was held the area is zero already.
fn put(table: &mut [u64], pool: &mut [u8], row: usize, slot: Slot, src: &[u8])
    requires { (slot.at + length src.now ≤ length pool.old) × (slot.at + slot.held ≤ length pool.old) }
    ensures { (table.new ≡ with_held table.old row (length src.now))
        × (pool.new ≡ overwritten pool.old slot.at slot.held src.now) }
{
    let n = src.len();
    octets::copy(pool, slot.at, src);
    clear(pool, slot.at + n, slot.at + slot.held);
    rows::put_held(table, row, n);
}

// Writes data to a tag. It stands in its callers by a hint: as a call, to which all is handed through memory, a bulk write took a tenth to a third longer.
#[inline(always)]
pub fn write(
    head: Head,
    table: &mut [u64],
    pool: &mut [u8],
    tag: u64,
    src: &[u8],
    port: Port,
    access: Access,
) -> Result<(), Denial>
    requires { Sound head table.old pool.old }
    ensures { (u : State) → Shows u head table.old pool.old
        → Did (write_step u tag src.now port access) (verdict_of result) head table.new pool.new }
{
    let i = registered_row(head, table, tag)?;
    let slot = rows::get_slot(table, i);
    admission::admit_write(slot.about, src.len(), port, access)?;
    put(table, pool, i, slot, src);
    Ok(())
}

// ---- free

// The n octets at a place go: those behind them, up to the end of what is in use, move up, each of them once, and zeros come in.
fn close(pool: &mut [u8], at: usize, n: usize, end: usize)
    requires { (at + n ≤ end) × (end ≤ length pool.old) }
    ensures { pool.new ≡ closed pool.old at n end }
{
    let last = end - n;
    // A loop and no copy_within: that would tell what the octets become, but not that each moves once.
    for i in at..last {
        pool[i] = pool[i + n];
    }
    clear(pool, last, end);
}

// The tag in a row goes, with its area.
fn remove(head: Head, table: &mut [u64], pool: &mut [u8], row: usize, slot: Slot) -> Head
    requires sound { Sound head table.old pool.old }
    requires row_there { (row < head.count) × (slot ≡ slot_at table.old row) }
    ensures { (u : State) → Shows u head table.old pool.old
        → Shows (holding u (without tag_id (slot_tag slot) u.tags)) result table.new pool.new }
{
    let size = slot.about.size;
    close(pool, slot.at, size, head.used);
    rows::remove_row(table, head.count, row);
    Head {
        count: head.count - 1,
        used: head.used - size,
        ..head
    }
}

// Frees a tag: its room is used again. It gives the new head; of a denial the head is as it was.
pub fn free(
    head: Head,
    table: &mut [u64],
    pool: &mut [u8],
    tag: u64,
    port: Port,
    access: Access,
) -> Result<Head, Denial>
    requires { Sound head table.old pool.old }
    ensures { (u : State) → Shows u head table.old pool.old
        → Did (free_step u tag port access) (verdict_of result) (head_after head result) table.new pool.new }
{
    let i = registered_row(head, table, tag)?;
    let slot = rows::get_slot(table, i);
    admission::admit_free(slot.about, port, access)?;
    Ok(remove(head, table, pool, i, slot))
}

// ---- new tags

fn is_registered(head: Head, table: &[u64], tag: u64) -> bool
    ensures { is_tag (known_at table.now (row_of head table.now tag)) ≡ result }
{
    rows::find_row(table, head.count, tag).is_some()
}

// What is asked for a new tag.
fn asked(tag: u64, size: u32, mode: Mode, spf: bool, lock: Access) -> Attributes
    ensures { result ≡ asked_attributes tag size mode spf lock }
{
    Attributes {
        tag: octets::bare_tag(tag),
        size: size as usize,
        mode,
        spf,
        lock,
    }
}

// A new tag's row, behind the last. Its area is the first octets that are not in use.
fn register(head: Head, table: &mut [u64], new: Attributes, held: usize) -> Head
    requires { (head.count < head.limits.tags) × (head.used + new.size ≤ head.limits.memory) }
    ensures { (result ≡ head_with head new.size) × (table.new ≡ laid table.old (head.count * 8) (words (record { about = new; at = head.used; held = held }))) }
{
    rows::put_slot(
        table,
        head.count,
        Slot {
            about: new,
            at: head.used,
            held,
        },
    );
    Head {
        count: head.count + 1,
        used: head.used + new.size,
        ..head
    }
}

// Registers a tag for a gate; it holds nothing. With a password, that becomes the tag's. Its area is zero already. No rule looks at the port of an allocation.
pub fn allocate(
    head: Head,
    table: &mut [u64],
    tag: u64,
    size: u32,
    mode: Mode,
    spf: bool,
    port: Port,
    access: Access,
) -> Result<Head, Denial>
    ensures { (u : State) (pool : List ℕ) → Shows u head table.old pool
        → Did (allocate_step u tag size mode spf port access) (verdict_of result) (head_after head result)
        table.new pool }
{
    let new = asked(tag, size, mode, spf, access);
    admission::admit_allocate(head, is_registered(head, table, tag), new)?;
    Ok(register(head, table, new, 0))
}

// Fits a unit-managed tag for the vehicle, with its first data.
pub fn fit(
    head: Head,
    table: &mut [u64],
    pool: &mut [u8],
    tag: u64,
    size: u32,
    mode: Mode,
    spf: bool,
    lock: Access,
    src: &[u8],
) -> Result<Head, Denial>
    ensures { (u : State) → Shows u head table.old pool.old
        → Did (fit_step u tag size mode spf lock src.now) (verdict_of result) (head_after head result)
        table.new pool.new }
{
    let new = asked(tag, size, mode, spf, lock);
    admission::admit_fit(head, is_registered(head, table, tag), new, src.len())?;
    octets::copy(pool, head.used, src);
    Ok(register(head, table, new, src.len()))
}
