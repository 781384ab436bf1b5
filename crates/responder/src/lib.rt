// The responder: the unit's answer to the octets of a request, on either port.
// Rules: document 01, 'Denials and their order' and 'Lists'. The main statement stands at `respond`: reply, answer area
// and unit are those of the definition `respond` (specs/Respond); the three demands are specs/Demands. On the codec and
// the store, by their contracts. A denial is handed on by `?` and written in one place, by `respond`.
#![tactic(auto)]

ghost use Rattle.std.specs.Prelude.{◌≡◌, true, List, [], ◌∷◌, ◌++◌, ℕ, ◌+◌, ◌≤◌, ◌<◌, length};
ghost use Rattle.octets.specs.View.{entries_in};
ghost use Rattle.octets.specs.Reading.{message};
ghost use Rattle.tags.specs.Entry.{form_of, key, memory};
ghost use Rattle.resources.specs.View.{grant_in};
ghost use Rattle.requests.specs.View.{operation_kind, operation_body, OperationPlace, ListEnds};
ghost use Rattle.answers.specs.Answer as b;
ghost use Rattle.admission.specs.Denial.{number, verdict_of};
ghost use Rattle.store.specs.Model.{State, head_of, Shows, Sound};
ghost use Rattle.responder.specs.Respond.{denial as denial_of, allocate_done, free_done, read_done, write_done, size_told, room_of, resource_as, all_told, resources_done, all_reads, bulk_read_done, noted, all_writes, bulk_write_done, served, fitted, first_lines, handled, respond};
ghost use Rattle.responder.specs.Entry.{sent_of, line_of, count_of, resources_in, found_told, names_in, picked, Picked, Chooses, Wrote, Gives, Sends, Serves, Served, Responded};

use admission::{Denial, Head, Mode};
use octets::{Access, Entries, Form, Port, Span, Taken, Written};
use requests::Operation;
use resources::{Allocation, Resource, Room};
use store::{Found, Unit};

// The length of the answer. Where the area is too short (300) there is none.
pub type Sent = Option<usize>;

#[derive(Clone, Copy)]
pub struct Reply {
    pub head: Head,
    pub sent: Sent,
}

// ---- replies

// An area of 2,048 octets has room for every reply: that there is none does not come up.
fn told(written: Written) -> Sent
    ensures { result ≡ sent_of written }
{
    written.ok()
}

// Denies; 4 tells the unit's version octet.
fn deny(answer: &mut [u8], version: u8, denial: Denial) -> Sent
    requires { (version ≤ 15) × (2048 ≤ length answer.old) }
    ensures { Sends (denial_of version (number denial)) result answer.old answer.new }
{
    let octet = [version * 16];
    let n = usize::from(denial == Denial::Version);
    told(answers::write_denial(answer, version, denial.number(), &octet[..n]))
}

// ---- the lines of the table before the body

// Whether an operation type is in the table and its option is fitted.
#[tactic(auto, unfolding(crate::specs::Respond::fitted, requests::specs::Command::known))]
fn is_fitted(allocation: bool, passwords: bool, kind: u8) -> bool
    ensures { result ≡ fitted allocation passwords kind }
{
    match kind {
        0 | 3..=6 => true,
        1 | 2 => allocation,
        65 | 66 => allocation && passwords,
        67..=70 => passwords,
        7..=64 | 71..=255 => false,
    }
}

// 16, 4, 16, 12: from the request's length to its operation type.
#[tactic(auto, unfolding(crate::specs::Respond::first_lines))]
fn first_lines(head: Head, s: &[u8]) -> Result<(), Denial>
    ensures { (u : State) → head ≡ head_of u → line_of result ≡ first_lines u s.now }
{
    if s.is_empty() || head.limits.message < s.len() {
        return Err(Denial::Octets);
    }
    let first = s[0];
    if octets::version_of(first) != head.version {
        return Err(Denial::Version);
    }
    if octets::fill_of(first) != 0 {
        return Err(Denial::Octets);
    }
    if s.len() < 2 || s[1] != 1 {
        return Err(Denial::Octets);
    }
    if s.len() < 3 {
        return Err(Denial::Octets);
    }
    if !is_fitted(head.allocation, head.passwords, s[2]) {
        return Err(Denial::Option);
    }
    Ok(())
}

// ---- single commands

// Head, table and memory come apart here and below, as the store takes them.

fn serve_allocate(
    head: Head,
    table: &mut [u64],
    port: Port,
    allocation: Allocation,
    answer: &mut [u8],
) -> Result<Reply, Denial>
    requires { (head.version ≤ 15) × (2048 ≤ length answer.old) }
    ensures { (u : State) (pool s : List ℕ) → Shows u head table.old pool
        → Served (allocate_done u port (form_of allocation.access) (grant_in s allocation)) head result
        answer.old answer.new table.new pool }
{
    let code = u64::from(allocation.mode);
    let after = store::allocate(
        head,
        table,
        allocation.tag,
        allocation.size,
        admission::code_mode(code),
        admission::code_spf(code),
        port,
        allocation.access,
    )?;
    let form = tags::form_of(allocation.access);
    let tag = octets::bare_tag(allocation.tag);
    let written = answers::write_allocate(answer, head.version, form, tag);
    Ok(Reply {
        head: after,
        sent: told(written),
    })
}

fn serve_free(
    head: Head,
    table: &mut [u64],
    pool: &mut [u8],
    port: Port,
    access: Access,
    tag: u64,
    answer: &mut [u8],
) -> Result<Reply, Denial>
    requires sound { Sound head table.old pool.old }
    requires room { 2048 ≤ length answer.old }
    ensures { (u : State) → Shows u head table.old pool.old
        → Served (free_done u port (form_of access) (tag, access)) head result answer.old answer.new table.new pool.new }
{
    let after = store::free(head, table, pool, tag, port, access)?;
    let form = tags::form_of(access);
    let bare = octets::bare_tag(tag);
    let written = answers::write_free(answer, head.version, form, bare);
    Ok(Reply {
        head: after,
        sent: told(written),
    })
}

fn serve_write(
    head: Head,
    table: &mut [u64],
    pool: &mut [u8],
    port: Port,
    access: Access,
    tag: u64,
    src: &[u8],
    answer: &mut [u8],
) -> Result<Reply, Denial>
    requires sound { Sound head table.old pool.old }
    requires room { 2048 ≤ length answer.old }
    ensures { (u : State) → Shows u head table.old pool.old
        → Served (write_done u port (form_of access) ((tag, access), src.now)) head result
        answer.old answer.new table.new pool.new }
{
    store::write(head, table, pool, tag, src, port, access)?;
    let form = tags::form_of(access);
    let bare = octets::bare_tag(tag);
    let written = answers::write_write(answer, head.version, form, bare);
    Ok(Reply {
        head,
        sent: told(written),
    })
}

fn serve_read(
    head: Head,
    table: &[u64],
    pool: &[u8],
    port: Port,
    access: Access,
    tag: u64,
    answer: &mut [u8],
) -> Result<Reply, Denial>
    requires sound { Sound head table.now pool.now }
    requires room { 2048 ≤ length answer.old }
    ensures { (u : State) → Shows u head table.now pool.now
        → Served (read_done u port (form_of access) (tag, access)) head result answer.old answer.new table.now pool.now }
{
    let Span { start, len } = store::read(head, table, tag, port, access)?;
    let form = tags::form_of(access);
    let bare = octets::bare_tag(tag);
    let src = &pool[start..start + len];
    let written = answers::write_read(answer, head.version, form, bare, src);
    Ok(Reply {
        head,
        sent: told(written),
    })
}

// ---- resource information

fn room_of(head: Head) -> Room
    ensures { (u : State) → head ≡ head_of u → result ≡ room_of u }
{
    let left = store::remainder(head);
    let tags = u16::try_from(left.tags).unwrap_or(u16::MAX);
    let octets = u32::try_from(left.octets).unwrap_or(u32::MAX);
    Room {
        largest: u32::try_from(head.limits.message).unwrap_or(u32::MAX),
        tags,
        octets,
        volatile_tags: tags,
        volatile_octets: octets,
        entries: u16::try_from(head.limits.list).unwrap_or(u16::MAX),
    }
}

// The data size of a tag that may not be read is told as 0.
fn size_told(mode: Mode, held: usize) -> usize
    ensures { result ≡ size_told mode held }
{
    match mode {
        Mode::Both | Mode::ReadOnly => held,
        Mode::WriteOnly => 0,
    }
}

// What is told of a tag. A number too great for its field is shown as the field's largest.
fn resource_as(found: Found) -> Resource
    ensures { result ≡ resource_as found.about found.held }
{
    let Found { about, held } = found;
    Resource {
        tag: about.tag,
        mode: admission::mode_code(about.mode, about.spf) as u8,
        held: u32::try_from(size_told(about.mode, held)).unwrap_or(u32::MAX),
        size: u32::try_from(about.size).unwrap_or(u32::MAX),
    }
}

// What is told of tags: the first `count` elements of each array. The writer takes slices side by side.
#[derive(Clone, Copy)]
struct Information {
    tags: [u64; 16],
    modes: [u8; 16],
    held: [u32; 16],
    sizes: [u32; 16],
    count: usize,
}

impl Information {
    fn new() -> Information
        ensures { (result.count ≡ 0) × (resources_in result ≡ []) }
    {
        Information {
            tags: [0; 16],
            modes: [0; 16],
            held: [0; 16],
            sizes: [0; 16],
            count: 0,
        }
    }

    // One entry more, if the tag is registered.
    fn tell(&mut self, found: Option<Found>)
        requires { self.old.count < 16 }
        ensures few { self.new.count ≤ self.old.count + 1 }
        ensures told { resources_in self.new ≡ found_told found (resources_in self.old) }
    {
        let Some(found) = found else {
            return;
        };
        let resource = resource_as(found);
        let k = self.count;
        self.tags[k] = resource.tag;
        self.modes[k] = resource.mode;
        self.held[k] = resource.held;
        self.sizes[k] = resource.size;
        self.count = k + 1;
    }

    fn write(&self, answer: &mut [u8], version: u8, room: Room) -> Written
        requires { self.now.count ≤ 16 }
        ensures { Gives version Form.Plain (b.resource_information (room, resources_in self.now)) result
            answer.old answer.new }
    {
        let k = self.count;
        answers::write_resources(
            answer,
            version,
            room,
            &self.tags[..k],
            &self.modes[..k],
            &self.held[..k],
            &self.sizes[..k],
        )
    }
}

// Tells of each tag of a list that is registered.
// In this loop and the two like it the list is known to read to its end: no entry is missing.
fn tell_each(head: Head, table: &[u64], s: &[u8], list: Entries, information: &mut Information)
    requires room { information.old.count + list.count ≤ 16 }
    requires list_ends { ListEnds (key Form.Plain) s.now list }
    ensures few { information.new.count ≤ information.old.count + list.count }
    ensures told { (u : State) (pool : List ℕ) → Shows u head table.now pool
        → resources_in information.new
        ≡ all_told u (resources_in information.old) (entries_in (key Form.Plain) s.now list) }
{
    let mut at = list.start;
    for _ in 0..list.count {
        let Ok(Taken { value: key, next }) = tags::read_key(s, at, Form::Plain) else {
            return;
        };
        information.tell(store::find(head, table, key.tag));
        at = next;
    }
}

fn serve_resources(head: Head, table: &[u64], s: &[u8], list: Entries, answer: &mut [u8]) -> Sent
    requires limits { (head.version ≤ 15) × (list.count ≤ 16) × (2048 ≤ length answer.old) }
    requires list_ends { ListEnds (key Form.Plain) s.now list }
    ensures { (u : State) (pool : List ℕ) → Shows u head table.now pool
        → Sends (resources_done u (entries_in (key Form.Plain) s.now list)).reply result answer.old answer.new }
{
    let mut information = Information::new();
    tell_each(head, table, s, list, &mut information);
    told(information.write(answer, head.version, room_of(head)))
}

// ---- bulk read

// The entries chosen so far, the first `count` elements of each array: tags, and where their data stands in the memory.
// Together they take `size` octets. The writer takes slices side by side.
#[derive(Clone, Copy)]
struct Chosen {
    tags: [u64; 16],
    starts: [usize; 16],
    lengths: [usize; 16],
    count: usize,
    size: usize,
}

impl Chosen {
    fn new() -> Chosen
        ensures none { (result.count ≡ 0) × (result.size ≡ 0) }
        ensures picked { (pool : List ℕ) → Picked result pool × (picked result pool ≡ []) }
    {
        Chosen {
            tags: [0; 16],
            starts: [0; 16],
            lengths: [0; 16],
            count: 0,
            size: 0,
        }
    }

    // One entry more, if a single command would give its data and the body has room for it.
    fn choose(&mut self, tag: u64, held: Result<Span, Denial>)
        requires { (self.old.count < 16) × (self.old.size ≤ 2041) }
        ensures { Chooses held tag self.old self.new }
    {
        let Ok(Span { start, len }) = held else {
            return;
        };
        // Before it is added up.
        if 2041 < len {
            return;
        }
        let size = self.size + 8 + octets::length_size(len) + len;
        if 2041 < size {
            return;
        }
        let k = self.count;
        self.tags[k] = octets::bare_tag(tag);
        self.starts[k] = start;
        self.lengths[k] = len;
        self.count = k + 1;
        self.size = size;
    }

    fn write(&self, answer: &mut [u8], version: u8, form: Form, pool: &[u8]) -> Written
        requires { self.now.count ≤ 16 }
        ensures { Picked self.now pool.now → Gives version form (b.bulk_read (picked self.now pool.now)) result
            answer.old answer.new }
    {
        let k = self.count;
        answers::write_bulk_read(
            answer,
            version,
            form,
            &self.tags[..k],
            &self.starts[..k],
            &self.lengths[..k],
            pool,
        )
    }
}

// Chooses from the entries of a list in turn.
fn choose_each(
    head: Head,
    table: &[u64],
    port: Port,
    form: Form,
    s: &[u8],
    list: Entries,
    chosen: &mut Chosen,
)
    requires room { (chosen.old.count + list.count ≤ 16) × (chosen.old.size ≤ 2041) }
    requires list_ends { ListEnds (key form) s.now list }
    ensures few { chosen.new.count ≤ chosen.old.count + list.count }
    ensures chosen { (u : State) (pool : List ℕ) → Shows u head table.now pool → Picked chosen.old pool
        → Picked chosen.new pool × (picked chosen.new pool
        ≡ all_reads u port (picked chosen.old pool) (entries_in (key form) s.now list)) }
{
    let mut at = list.start;
    for _ in 0..list.count {
        let Ok(Taken { value: key, next }) = tags::read_key(s, at, form) else {
            return;
        };
        let held = store::read(head, table, key.tag, port, key.access);
        chosen.choose(key.tag, held);
        at = next;
    }
}

fn bulk_read(
    head: Head,
    table: &[u64],
    pool: &[u8],
    port: Port,
    form: Form,
    s: &[u8],
    list: Entries,
    answer: &mut [u8],
) -> Sent
    requires sound { Sound head table.now pool.now }
    requires room { (list.count ≤ 16) × (2048 ≤ length answer.old) }
    requires list_ends { ListEnds (key form) s.now list }
    ensures { (u : State) → Shows u head table.now pool.now
        → Sends (bulk_read_done u port form (entries_in (key form) s.now list)).reply result answer.old answer.new }
{
    let mut chosen = Chosen::new();
    choose_each(head, table, port, form, s, list, &mut chosen);
    told(chosen.write(answer, head.version, form, pool))
}

// ---- bulk write

// The names of the tags written so far: the first `count`.
#[derive(Clone, Copy)]
struct Names {
    tags: [u64; 16],
    count: usize,
}

impl Names {
    fn new() -> Names
        ensures { (result.count ≡ 0) × (names_in result ≡ []) }
    {
        Names {
            tags: [0; 16],
            count: 0,
        }
    }

    // One name more, if the entry was written.
    fn note(&mut self, tag: u64, written: Result<(), Denial>)
        requires { self.old.count < 16 }
        ensures few { self.new.count ≤ self.old.count + 1 }
        ensures noted { names_in self.new ≡ noted (verdict_of written) tag (names_in self.old) }
    {
        let Ok(()) = written else {
            return;
        };
        self.tags[self.count] = octets::bare_tag(tag);
        self.count += 1;
    }

    fn write(&self, answer: &mut [u8], version: u8, form: Form) -> Written
        requires { self.now.count ≤ 16 }
        ensures { Gives version form (b.bulk_write (names_in self.now)) result answer.old answer.new }
    {
        answers::write_bulk_write(answer, version, form, &self.tags[..self.count])
    }
}

// Writes the entries of a list in turn and notes the names of those written.
// One that a single command would deny is passed over.
fn write_each(
    head: Head,
    table: &mut [u64],
    pool: &mut [u8],
    port: Port,
    form: Form,
    s: &[u8],
    list: Entries,
    names: &mut Names,
)
    requires sound { Sound head table.old pool.old }
    requires room { names.old.count + list.count ≤ 16 }
    requires list_ends { ListEnds (memory form) s.now list }
    ensures few { names.new.count ≤ names.old.count + list.count }
    ensures written { (u : State) → Shows u head table.old pool.old
        → Wrote (all_writes port (record { names = names_in names.old; unit = u }) (entries_in (memory form) s.now list))
        (names_in names.new) head table.new pool.new }
{
    let mut at = list.start;
    for _ in 0..list.count {
        let Ok(Taken { value: held, next }) = tags::read_memory(s, at, form) else {
            return;
        };
        let src = octets::part(s, held.span.start, held.span.len);
        let written = store::write(head, table, pool, held.tag, src, port, held.access);
        names.note(held.tag, written);
        at = next;
    }
}

fn bulk_write(
    head: Head,
    table: &mut [u64],
    pool: &mut [u8],
    port: Port,
    form: Form,
    s: &[u8],
    list: Entries,
    answer: &mut [u8],
) -> Sent
    requires sound { Sound head table.old pool.old }
    requires room { (list.count ≤ 16) × (2048 ≤ length answer.old) }
    requires list_ends { ListEnds (memory form) s.now list }
    ensures { (u : State) → Shows u head table.old pool.old
        → Serves (bulk_write_done u port form (entries_in (memory form) s.now list)) (record { head = head; sent = result }) answer.old answer.new table.new pool.new }
{
    let mut names = Names::new();
    write_each(head, table, pool, port, form, s, list, &mut names);
    told(names.write(answer, head.version, form))
}

// ---- the entry

// How many entries an operation's list has.
fn entry_count(operation: Operation) -> usize
    ensures { result ≡ count_of operation }
{
    match operation {
        Operation::Resources(list) | Operation::BulkRead(_, list) | Operation::BulkWrite(_, list) =>
            list.count,
        Operation::Allocate(_)
        | Operation::Free(_, _)
        | Operation::Read(_, _)
        | Operation::Write(_, _, _) => 0,
    }
}

// What is left of the table: 7, and each operation's own lines.
fn perform(
    head: Head,
    table: &mut [u64],
    pool: &mut [u8],
    port: Port,
    operation: Operation,
    s: &[u8],
    answer: &mut [u8],
) -> Result<Reply, Denial>
    requires sound { Sound head table.old pool.old }
    requires room { 2048 ≤ length answer.old }
    requires operation_place { OperationPlace s.now operation }
    ensures { (u : State) (version : ℕ) → Shows u head table.old pool.old
        → Served (served u port (message (record {
          version = version;
          kind = operation_kind operation;
          body = operation_body s.now operation;
        }))) head result answer.old answer.new table.new pool.new }
{
    if head.limits.list < entry_count(operation) {
        return Err(Denial::List);
    }
    match operation {
        Operation::Resources(list) => Ok(Reply {
            head,
            sent: serve_resources(head, table, s, list, answer),
        }),
        Operation::Allocate(allocation) => serve_allocate(head, table, port, allocation, answer),
        Operation::Free(access, tag) => serve_free(head, table, pool, port, access, tag, answer),
        Operation::Read(access, tag) => serve_read(head, table, pool, port, access, tag, answer),
        Operation::Write(access, tag, span) => {
            let src = octets::part(s, span.start, span.len);
            serve_write(head, table, pool, port, access, tag, src, answer)
        }
        Operation::BulkRead(form, list) => Ok(Reply {
            head,
            sent: bulk_read(head, table, pool, port, form, s, list, answer),
        }),
        Operation::BulkWrite(form, list) => Ok(Reply {
            head,
            sent: bulk_write(head, table, pool, port, form, s, list, answer),
        }),
    }
}

// Every line but that of 300, in the order of the table.
fn answered(
    head: Head,
    table: &mut [u64],
    pool: &mut [u8],
    port: Port,
    request: &[u8],
    answer: &mut [u8],
) -> Result<Reply, Denial>
    requires sound { Sound head table.old pool.old }
    requires room { 2048 ≤ length answer.old }
    ensures { (u : State) → Shows u head table.old pool.old
        → Served (handled u port request.now) head result answer.old answer.new table.new pool.new }
{
    first_lines(head, request)?;
    let Ok(asked) = requests::read_request(request) else {
        return Err(Denial::Octets);
    };
    perform(head, table, pool, port, asked.operation, request, answer)
}

// The unit's answer to a request that came by a port, written into the answer area.
pub fn respond(
    head: Head,
    table: &mut [u64],
    pool: &mut [u8],
    port: Port,
    request: &[u8],
    answer: &mut [u8],
) -> Reply
    requires { Sound head table.old pool.old }
    ensures { (u : State) → Shows u head table.old pool.old
        → Responded (respond u port request.now (length answer.old)) result answer.old answer.new table.new pool.new }
{
    if answer.len() < head.limits.message {
        return Reply { head, sent: None };
    }
    match answered(head, table, pool, port, request, answer) {
        Ok(reply) => reply,
        Err(denial) => Reply {
            head,
            sent: deny(answer, head.version, denial),
        },
    }
}
