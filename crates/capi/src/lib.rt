// The functions that C and Rust link, as a library: a unit in memory that its owner lends, and the gate's writers and readers. Numbers, bools and slices only. The crate
// capi_c exports them under the same names, and the declarations that a C program includes are include/taxeedhuul.h.
// Rules: document 01. What a caller passes that is not the unit's memory is refused by the documents' numbers, as minus that number (specs/Result); a refusal touches
// nothing. The one thing asked is that a unit's three slices are what these functions left (`Kept`, specs/Slices). On all the crates below, by their contracts.
#![tactic(auto)]

ghost use Rattle.std.specs.Prelude.{◌≡◌, [], ◌<◌, ◌≤◌, cond, ltb, length, get_or, Ok, Err};
ghost use Rattle.octets.specs.Area.{refused, outcome};
ghost use Rattle.octets.specs.Reading.{fault_number};
ghost use Rattle.tags.specs.Entry.{form_of};
ghost use Rattle.lists.specs.Handed.{keys_of};
ghost use Rattle.requests.specs.Request as b;
ghost use Rattle.requests.specs.Request.{request, request_sent, bulk_read_sent, bulk_write_sent};
ghost use Rattle.admission.specs.Denial.{number as denial_number};
ghost use Rattle.admission.specs.Mode.{code_mode};
ghost use Rattle.store.specs.Model.{State, first_kind};
ghost use Rattle.store.specs.Steps.{fit_step};
ghost use Rattle.responder.specs.Entry.{word_of};
ghost use Rattle.capi.specs.Result.{number, outcome_of, number_of, worded, WrittenShort, SentShort};
ghost use Rattle.capi.specs.Slices.{slices, lent, head_words, Kept};
ghost use Rattle.capi.specs.Calls.{port_of, access_of, form_for, Starts, Responds, Fits};
ghost use Rattle.capi.specs.Gate.{Gives, filled, roomless, given_words, short};
ghost use Rattle.capi.specs.Gate.{ReadsAnswer, ReadsTag, ReadsMemory, ReadsResource};

use admission::{Denial, Head, Limits, Mode};
use answers::{Given, Reply};
use octets::{Access, Fault, Form, Port, Taken, Unwritten, Written};
use requests::form_number;
use responder::Sent;
use store::Unit;

// ---- why a call is refused, and the number that a caller is given

// Why a call is refused. Each has a number, which `number` gives.
#[derive(Clone, Copy, PartialEq, Eq)]
enum Refusal {
    // 16: a number that is too great, a message that may not be written, or octets that do not decode.
    Value,
    // 300: a slice that is too short, or one of a unit that has not its length.
    Room,
    // 301: a version above 15.
    Version,
    // A fitting that the unit denies.
    Denied(Denial),
}

impl Refusal {
    fn number(self) -> u16
        ensures { result ≡ number self }
    {
        match self {
            Refusal::Value => 16,
            Refusal::Room => 300,
            Refusal::Version => 301,
            Refusal::Denied(denial) => denial.number() as u16,
        }
    }
}

impl From<Fault> for Refusal {
    ghost from_gives = { λ f r. number r ≡ fault_number f };

    fn from(_fault: Fault) -> Refusal {
        Refusal::Value
    }
}

impl From<Unwritten> for Refusal {
    ghost from_gives = { λ u r. refused (number r) ≡ outcome (Err u) };

    fn from(unwritten: Unwritten) -> Refusal {
        match unwritten {
            Unwritten::Refused => Refusal::Value,
            Unwritten::NoRoom => Refusal::Room,
        }
    }
}

impl From<Denial> for Refusal {
    ghost from_gives = { λ d r. number r ≡ denial_number d };

    fn from(denial: Denial) -> Refusal {
        Refusal::Denied(denial)
    }
}

// What a caller is given: what there is to tell, or minus the number of the refusal.
fn told(outcome: Result<u16, Refusal>) -> i32
    ensures { result ≡ number_of (outcome_of outcome) }
{
    match outcome {
        Ok(n) => n as i32,
        Err(refusal) => -(refusal.number() as i32),
    }
}

fn of_written(written: Written) -> Result<u16, Refusal>
    requires { WrittenShort written }
    ensures { outcome_of result ≡ outcome written }
{
    Ok(written? as u16)
}

fn of_sent(sent: Sent) -> Result<u16, Refusal>
    requires { SentShort sent }
    ensures { outcome_of result ≡ worded (word_of sent) }
{
    Ok(sent.ok_or(Refusal::Room)? as u16)
}

// ---- what numbers stand for

fn port_of(port: u8) -> Result<Port, Refusal>
    ensures { result ≡ cond (ltb 1 port) (Err Refusal.Value) (Ok (port_of port)) }
{
    match port {
        0 => Ok(Port::Normal),
        1 => Ok(Port::Secure),
        _ => Err(Refusal::Value),
    }
}

fn mode_of(mode: u8) -> Result<Mode, Refusal>
    ensures { result ≡ cond (ltb 2 mode) (Err Refusal.Value) (Ok (code_mode mode)) }
{
    match mode {
        0 => Ok(Mode::Both),
        1 => Ok(Mode::WriteOnly),
        2 => Ok(Mode::ReadOnly),
        _ => Err(Refusal::Value),
    }
}

fn access_of(locked: bool, password: u64) -> Access
    ensures { result ≡ access_of locked password }
{
    if locked {
        Access::Password(password)
    } else {
        Access::Plain
    }
}

fn form_for(locked: bool) -> Form
    ensures { result ≡ form_for locked }
{
    if locked { Form::Password } else { Form::Plain }
}

// ---- the unit's memory

// The slices of a unit have its lengths.
fn are_lent(head: &[u64], table: &[u64], memory: &[u8]) -> Result<(), Refusal>
    ensures { result ≡ cond (lent (slices head.now table.now memory.now)) (Ok tt) (Err Refusal.Room) }
{
    if head.len() == 5 && table.len() == Unit::WORDS && memory.len() == Unit::MEMORY {
        Ok(())
    } else {
        Err(Refusal::Room)
    }
}

// The head that five words are.
fn head_of(words: &[u64]) -> Head
    requires { (length words.now ≡ 5) × (get_or words.now 0 0 < 256) }
    ensures { (h : Head) → h.limits ≡ first_kind → words.now ≡ head_words h → result ≡ h }
{
    Head {
        limits: Limits {
            tags: Unit::TAGS,
            memory: Unit::MEMORY,
            area: Unit::AREA,
            message: Unit::MESSAGE,
            list: Unit::LIST,
        },
        version: words[0] as u8,
        allocation: words[1] != 0,
        passwords: words[2] != 0,
        count: words[3] as usize,
        used: words[4] as usize,
    }
}

// The words become those of a head.
fn put_head(words: &mut [u64], head: Head)
    requires { length words.old ≡ 5 }
    ensures { words.new ≡ head_words head }
{
    let fields = [
        head.version as u64,
        head.allocation as u64,
        head.passwords as u64,
        head.count as u64,
        head.used as u64,
    ];
    words.copy_from_slice(&fields);
}

// ---- the unit

// A unit comes as three slices, a lock as a bool and a password: the C interface passes no struct.

// Makes a unit in the lent slices, whatever they held: 0. 301 for a version above 15; 300 where a slice has not its length.
pub fn taxeedhuul_start(
    head: &mut [u64],
    table: &mut [u64],
    memory: &mut [u8],
    version: u8,
    allocation: bool,
    passwords: bool,
) -> i32
    ensures { Starts version allocation passwords (slices head.old table.old memory.old) result (slices head.new table.new memory.new) }
{
    told(start(head, table, memory, version, allocation, passwords))
}

fn start(
    head: &mut [u64],
    table: &mut [u64],
    memory: &mut [u8],
    version: u8,
    allocation: bool,
    passwords: bool,
) -> Result<u16, Refusal>
    ensures { Starts version allocation passwords (slices head.old table.old memory.old)
        (number_of (outcome_of result)) (slices head.new table.new memory.new) }
{
    let new = Unit::start(version, allocation, passwords).ok_or(Refusal::Version)?;
    are_lent(head, table, memory)?;
    put_head(head, new);
    table.fill(0);
    memory.fill(0);
    Ok(0)
}

// The unit's answer to a request that came by a port: its length. 16 for a port above 1; 300 where a slice of the unit has not its length or the answer area is
// shorter than 2,048 octets.
pub fn taxeedhuul_respond(
    head: &mut [u64],
    table: &mut [u64],
    memory: &mut [u8],
    port: u8,
    request: &[u8],
    answer: &mut [u8],
) -> i32
    requires { Kept head.old table.old memory.old }
    ensures { Responds port request.now (slices head.old table.old memory.old) answer.old result (slices head.new table.new memory.new) answer.new }
{
    told(respond(head, table, memory, port, request, answer))
}

fn respond(
    head: &mut [u64],
    table: &mut [u64],
    memory: &mut [u8],
    port: u8,
    request: &[u8],
    answer: &mut [u8],
) -> Result<u16, Refusal>
    requires { Kept head.old table.old memory.old }
    ensures { Responds port request.now (slices head.old table.old memory.old) answer.old
        (number_of (outcome_of result)) (slices head.new table.new memory.new) answer.new }
{
    let port = port_of(port)?;
    are_lent(head, table, memory)?;
    let reply = responder::respond(head_of(head), table, memory, port, request, answer);
    put_head(head, reply.head);
    of_sent(reply.sent)
}

// Fits a unit-managed tag for the vehicle, with its first data: 0. 16 for a mode above 2 (0 both, 1 write only, 2 read only); 300 where a slice of the unit has not
// its length; then 6, 12, 9 and 5. The password counts only where the tag is locked.
pub fn taxeedhuul_fit(
    head: &mut [u64],
    table: &mut [u64],
    memory: &mut [u8],
    tag: u64,
    size: u32,
    mode: u8,
    spf: bool,
    locked: bool,
    password: u64,
    first: &[u8],
) -> i32
    requires { Kept head.old table.old memory.old }
    ensures { Fits mode (λ (u : State). fit_step u tag size (code_mode mode) spf (access_of locked password) first.now) (slices head.old table.old memory.old) result (slices head.new table.new memory.new) }
{
    told(fit(
        head, table, memory, tag, size, mode, spf, locked, password, first,
    ))
}

fn fit(
    head: &mut [u64],
    table: &mut [u64],
    memory: &mut [u8],
    tag: u64,
    size: u32,
    mode: u8,
    spf: bool,
    locked: bool,
    password: u64,
    first: &[u8],
) -> Result<u16, Refusal>
    requires { Kept head.old table.old memory.old }
    ensures { Fits mode (λ (u : State). fit_step u tag size (code_mode mode) spf (access_of locked password) first.now)
        (slices head.old table.old memory.old) (number_of (outcome_of result)) (slices head.new table.new memory.new) }
{
    let mode = mode_of(mode)?;
    are_lent(head, table, memory)?;
    let unit = head_of(head);
    let lock = access_of(locked, password);
    let left = store::fit(unit, table, memory, tag, size, mode, spf, lock, first)?;
    put_head(head, left);
    Ok(0)
}

// ---- the gate writes: the length of the request in the area. 16 where it may not be written, then 300 for a short area

// Asks for resource information of tags.
pub fn taxeedhuul_write_resource_information(area: &mut [u8], version: u8, tags: &[u64]) -> i32
    ensures { Gives (request_sent (request version Form.Plain (b.resource_information (keys_of Form.Plain tags.now []))) area.old) result area.new }
{
    told(of_written(requests::write_resources(area, version, tags)))
}

// Asks for an area; the mode is the code of the tables.
pub fn taxeedhuul_write_allocate(
    area: &mut [u8],
    version: u8,
    tag: u64,
    mode: u8,
    size: u32,
    locked: bool,
    password: u64,
    initial: &[u8],
) -> i32
    ensures { Gives (request_sent (request version (form_of (access_of locked password)) (b.allocate (record { tag = tag; mode = mode; size = size; access = access_of locked password; initial = initial.now }))) area.old) result area.new }
{
    let access = access_of(locked, password);
    told(of_written(requests::write_allocate(area, version, access, tag, mode, size, initial)))
}

pub fn taxeedhuul_write_free(
    area: &mut [u8],
    version: u8,
    tag: u64,
    locked: bool,
    password: u64,
) -> i32
    ensures { Gives (request_sent (request version (form_of (access_of locked password)) (b.free (tag, access_of locked password))) area.old) result area.new }
{
    let access = access_of(locked, password);
    told(of_written(requests::write_free(area, version, access, tag)))
}

pub fn taxeedhuul_write_read(
    area: &mut [u8],
    version: u8,
    tag: u64,
    locked: bool,
    password: u64,
) -> i32
    ensures { Gives (request_sent (request version (form_of (access_of locked password)) (b.read (tag, access_of locked password))) area.old) result area.new }
{
    let access = access_of(locked, password);
    told(of_written(requests::write_read(area, version, access, tag)))
}

pub fn taxeedhuul_write_write(
    area: &mut [u8],
    version: u8,
    tag: u64,
    locked: bool,
    password: u64,
    bytes: &[u8],
) -> i32
    ensures { Gives (request_sent (request version (form_of (access_of locked password)) (b.write ((tag, access_of locked password), bytes.now))) area.old) result area.new }
{
    let access = access_of(locked, password);
    told(of_written(requests::write_write(area, version, access, tag, bytes)))
}

// A list of any number of tags, locked with a password each; otherwise no passwords are handed over.
pub fn taxeedhuul_write_bulk_read(
    area: &mut [u8],
    version: u8,
    locked: bool,
    tags: &[u64],
    passwords: &[u64],
) -> i32
    ensures { Gives (bulk_read_sent (form_for locked) version tags.now passwords.now area.old) result area.new }
{
    let form = form_for(locked);
    told(of_written(requests::write_bulk_read(area, version, form, tags, passwords)))
}

// The data of entry i is the part of `bytes` that starts at start i and has length i.
pub fn taxeedhuul_write_bulk_write(
    area: &mut [u8],
    version: u8,
    locked: bool,
    tags: &[u64],
    passwords: &[u64],
    starts: &[usize],
    lengths: &[usize],
    bytes: &[u8],
) -> i32
    ensures { Gives (bulk_write_sent (form_for locked) version tags.now passwords.now starts.now lengths.now bytes.now area.old) result area.new }
{
    let form = form_for(locked);
    told(of_written(requests::write_bulk_write(
        area, version, form, tags, passwords, starts, lengths, bytes,
    )))
}

// ---- the gate reads: words into a lent slice. 16 where the octets are no answer, or no entry stands at the place; then 300 for too few words
// What is told is words and a type's number, not structs and enums: the C interface passes words alone.

// Puts words at the front of the lent ones, if they are enough, and tells a number.
#[tactic(auto, unfolding(crate::specs::Gate::filled))]
fn fill(fields: &mut [u64], words: &[u64], number: u16) -> Result<u16, Refusal>
    ensures { Gives (filled number words.now fields.old) (number_of (outcome_of result)) fields.new }
{
    if fields.len() < words.len() {
        return Err(Refusal::Room);
    }
    // A loop: the library's copy is a call, which takes longer for so few words.
    for i in 0..words.len() {
        fields[i] = words[i];
    }
    Ok(number)
}

// The words of an answer that tells no room.
fn row(kind: u8, version: u8, status: u8, tag: u64, start: usize, count: usize) -> [u64; 12]
    ensures { result ≡ roomless kind version status tag start count }
{
    let mut words = [0; 12];
    words[..6].copy_from_slice(&[
        kind as u64,
        version as u64,
        status as u64,
        tag,
        start as u64,
        count as u64,
    ]);
    words
}

// The words of an answer.
fn words_of(version: u8, given: Given) -> [u64; 12]
    ensures { result ≡ given_words version given }
{
    match given {
        Given::Resources(room, list) => [
            128,
            version as u64,
            0,
            0,
            list.start as u64,
            list.count as u64,
            room.largest as u64,
            room.tags as u64,
            room.octets as u64,
            room.volatile_tags as u64,
            room.volatile_octets as u64,
            room.entries as u64,
        ],
        Given::Allocate(form, tag) => row(129 + form_number(form), version, 0, tag, 0, 0),
        Given::Free(form, tag) => row(130 + form_number(form), version, 0, tag, 0, 0),
        Given::Read(form, tag, span) => {
            row(
                131 + form_number(form),
                version,
                0,
                tag,
                span.start,
                span.len,
            )
        }
        Given::Write(form, tag) => row(132 + form_number(form), version, 0, tag, 0, 0),
        Given::BulkRead(form, list) => {
            row(
                133 + form_number(form),
                version,
                0,
                0,
                list.start,
                list.count,
            )
        }
        Given::BulkWrite(form, list) => {
            row(
                134 + form_number(form),
                version,
                0,
                0,
                list.start,
                list.count,
            )
        }
    }
}

// What octets answer: the answer's type, or 255 for a denial. The words, 12 of them: type, version, status, tag, first place, length or count, and the six numbers of
// what a unit can take.
pub fn taxeedhuul_read_answer(octets: &[u8], fields: &mut [u64]) -> i32
    ensures { ReadsAnswer octets.now fields.old result fields.new }
{
    told(read_answer(octets, fields))
}

fn read_answer(octets: &[u8], fields: &mut [u64]) -> Result<u16, Refusal>
    ensures { ReadsAnswer octets.now fields.old (number_of (outcome_of result)) fields.new }
{
    match answers::read_answer(octets)? {
        Reply::Denied {
            version,
            status,
            supplement,
        } => {
            let words = row(255, version, status, 0, supplement.start, supplement.len);
            fill(fields, &words, 255)
        }
        Reply::Accepted { version, given } => {
            let words = words_of(version, given);
            fill(fields, &words, words[0] as u16)
        }
    }
}

// Puts the words of an entry that ends within the octets, if a list may stand in so many.
// It tells where the next one starts.
fn fill_entry(octets: &[u8], fields: &mut [u64], words: &[u64], next: usize) -> Result<u16, Refusal>
    requires { next ≤ length octets.now }
    ensures { Gives (short octets.now (filled next words.now fields.old) fields.old)
        (number_of (outcome_of result)) fields.new }
{
    if 2048 < octets.len() {
        return Err(Refusal::Value);
    }
    fill(fields, words, next as u16)
}

// The entry of a list of tags at a place: where the next starts. The word: the tag.
pub fn taxeedhuul_read_tag(octets: &[u8], at: usize, fields: &mut [u64]) -> i32
    ensures { ReadsTag octets.now at fields.old result fields.new }
{
    told(read_tag(octets, at, fields))
}

fn read_tag(octets: &[u8], at: usize, fields: &mut [u64]) -> Result<u16, Refusal>
    ensures { ReadsTag octets.now at fields.old (number_of (outcome_of result)) fields.new }
{
    let Taken { value: key, next } = tags::read_key(octets, at, Form::Plain)?;
    fill_entry(octets, fields, &[key.tag], next)
}

// The entry of a list of memory data at a place: where the next starts. The words: tag, first place and length of the data.
pub fn taxeedhuul_read_memory_data(octets: &[u8], at: usize, fields: &mut [u64]) -> i32
    ensures { ReadsMemory octets.now at fields.old result fields.new }
{
    told(read_memory_data(octets, at, fields))
}

fn read_memory_data(octets: &[u8], at: usize, fields: &mut [u64]) -> Result<u16, Refusal>
    ensures { ReadsMemory octets.now at fields.old (number_of (outcome_of result)) fields.new }
{
    let Taken { value, next } = tags::read_memory(octets, at, Form::Plain)?;
    let words = [value.tag, value.span.start as u64, value.span.len as u64];
    fill_entry(octets, fields, &words, next)
}

// The entry of a list of resource information at a place: where the next starts. The words: tag, mode code, data size, area size.
pub fn taxeedhuul_read_resource(octets: &[u8], at: usize, fields: &mut [u64]) -> i32
    ensures { ReadsResource octets.now at fields.old result fields.new }
{
    told(read_resource(octets, at, fields))
}

fn read_resource(octets: &[u8], at: usize, fields: &mut [u64]) -> Result<u16, Refusal>
    ensures { ReadsResource octets.now at fields.old (number_of (outcome_of result)) fields.new }
{
    let Taken { value, next } = resources::read_resource(octets, at)?;
    let words = [
        value.tag,
        value.mode as u64,
        value.held as u64,
        value.size as u64,
    ];
    fill_entry(octets, fields, &words, next)
}
