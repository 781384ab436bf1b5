// The archive that C and Rust link: each function of capi, exported under its own name, with the same promise. A body only calls capi's.
// include/taxeedhuul.h declares these functions; what they give and do is told in capi's src/lib.rt and specs.
#![tactic(auto)]

ghost use Rattle.std.specs.Prelude.{[]};
ghost use Rattle.tags.specs.Entry.{form_of};
ghost use Rattle.lists.specs.Handed.{keys_of};
ghost use Rattle.octets.specs.declared.Form.{Form};
ghost use Rattle.requests.specs.Request as b;
ghost use Rattle.requests.specs.Request.{request, request_sent, bulk_read_sent, bulk_write_sent};
ghost use Rattle.admission.specs.Mode.{code_mode};
ghost use Rattle.store.specs.Model.{State};
ghost use Rattle.store.specs.Steps.{fit_step};
ghost use Rattle.capi.specs.Slices.{slices, Kept};
ghost use Rattle.capi.specs.Calls.{access_of, form_for, Starts, Responds, Fits};
ghost use Rattle.capi.specs.Gate.{Gives, ReadsAnswer, ReadsTag, ReadsMemory, ReadsResource};

// ---- the unit

#[unsafe(no_mangle)]
pub extern "C" fn taxeedhuul_start(
    head: &mut [u64],
    table: &mut [u64],
    memory: &mut [u8],
    version: u8,
    allocation: bool,
    passwords: bool,
) -> i32
    ensures { Starts version allocation passwords (slices head.old table.old memory.old) result (slices head.new table.new memory.new) }
{
    capi::taxeedhuul_start(head, table, memory, version, allocation, passwords)
}

#[unsafe(no_mangle)]
pub extern "C" fn taxeedhuul_respond(
    head: &mut [u64],
    table: &mut [u64],
    memory: &mut [u8],
    port: u8,
    request: &[u8],
    answer: &mut [u8],
) -> i32
    requires { Kept head.old table.old memory.old }
    ensures { Responds port request.now (slices head.old table.old memory.old) answer.old result (slices head.new table.new memory.new) answer.new }
{
    capi::taxeedhuul_respond(head, table, memory, port, request, answer)
}

#[unsafe(no_mangle)]
pub extern "C" fn taxeedhuul_fit(
    head: &mut [u64],
    table: &mut [u64],
    memory: &mut [u8],
    tag: u64,
    size: u32,
    mode: u8,
    spf: bool,
    locked: bool,
    password: u64,
    first: &[u8],
) -> i32
    requires { Kept head.old table.old memory.old }
    ensures { Fits mode (λ (u : State). fit_step u tag size (code_mode mode) spf (access_of locked password) first.now) (slices head.old table.old memory.old) result (slices head.new table.new memory.new) }
{
    capi::taxeedhuul_fit(
        head, table, memory, tag, size, mode, spf, locked, password, first,
    )
}

// ---- the gate writes

#[unsafe(no_mangle)]
pub extern "C" fn taxeedhuul_write_resource_information(
    area: &mut [u8],
    version: u8,
    tags: &[u64],
) -> i32
    ensures { Gives (request_sent (request version Form.Plain (b.resource_information (keys_of Form.Plain tags.now []))) area.old) result area.new }
{
    capi::taxeedhuul_write_resource_information(area, version, tags)
}

#[unsafe(no_mangle)]
pub extern "C" fn taxeedhuul_write_allocate(
    area: &mut [u8],
    version: u8,
    tag: u64,
    mode: u8,
    size: u32,
    locked: bool,
    password: u64,
    initial: &[u8],
) -> i32
    ensures { Gives (request_sent (request version (form_of (access_of locked password)) (b.allocate (record { tag = tag; mode = mode; size = size; access = access_of locked password; initial = initial.now }))) area.old) result area.new }
{
    capi::taxeedhuul_write_allocate(area, version, tag, mode, size, locked, password, initial)
}

#[unsafe(no_mangle)]
pub extern "C" fn taxeedhuul_write_free(
    area: &mut [u8],
    version: u8,
    tag: u64,
    locked: bool,
    password: u64,
) -> i32
    ensures { Gives (request_sent (request version (form_of (access_of locked password)) (b.free (tag, access_of locked password))) area.old) result area.new }
{
    capi::taxeedhuul_write_free(area, version, tag, locked, password)
}

#[unsafe(no_mangle)]
pub extern "C" fn taxeedhuul_write_read(
    area: &mut [u8],
    version: u8,
    tag: u64,
    locked: bool,
    password: u64,
) -> i32
    ensures { Gives (request_sent (request version (form_of (access_of locked password)) (b.read (tag, access_of locked password))) area.old) result area.new }
{
    capi::taxeedhuul_write_read(area, version, tag, locked, password)
}

#[unsafe(no_mangle)]
pub extern "C" fn taxeedhuul_write_write(
    area: &mut [u8],
    version: u8,
    tag: u64,
    locked: bool,
    password: u64,
    bytes: &[u8],
) -> i32
    ensures { Gives (request_sent (request version (form_of (access_of locked password)) (b.write ((tag, access_of locked password), bytes.now))) area.old) result area.new }
{
    capi::taxeedhuul_write_write(area, version, tag, locked, password, bytes)
}

#[unsafe(no_mangle)]
pub extern "C" fn taxeedhuul_write_bulk_read(
    area: &mut [u8],
    version: u8,
    locked: bool,
    tags: &[u64],
    passwords: &[u64],
) -> i32
    ensures { Gives (bulk_read_sent (form_for locked) version tags.now passwords.now area.old) result area.new }
{
    capi::taxeedhuul_write_bulk_read(area, version, locked, tags, passwords)
}

#[unsafe(no_mangle)]
pub extern "C" fn taxeedhuul_write_bulk_write(
    area: &mut [u8],
    version: u8,
    locked: bool,
    tags: &[u64],
    passwords: &[u64],
    starts: &[usize],
    lengths: &[usize],
    bytes: &[u8],
) -> i32
    ensures { Gives (bulk_write_sent (form_for locked) version tags.now passwords.now starts.now lengths.now bytes.now area.old) result area.new }
{
    capi::taxeedhuul_write_bulk_write(
        area, version, locked, tags, passwords, starts, lengths, bytes,
    )
}

// ---- the gate reads

#[unsafe(no_mangle)]
pub extern "C" fn taxeedhuul_read_answer(octets: &[u8], fields: &mut [u64]) -> i32
    ensures { ReadsAnswer octets.now fields.old result fields.new }
{
    capi::taxeedhuul_read_answer(octets, fields)
}

#[unsafe(no_mangle)]
pub extern "C" fn taxeedhuul_read_tag(octets: &[u8], at: usize, fields: &mut [u64]) -> i32
    ensures { ReadsTag octets.now at fields.old result fields.new }
{
    capi::taxeedhuul_read_tag(octets, at, fields)
}

#[unsafe(no_mangle)]
pub extern "C" fn taxeedhuul_read_memory_data(octets: &[u8], at: usize, fields: &mut [u64]) -> i32
    ensures { ReadsMemory octets.now at fields.old result fields.new }
{
    capi::taxeedhuul_read_memory_data(octets, at, fields)
}

#[unsafe(no_mangle)]
pub extern "C" fn taxeedhuul_read_resource(octets: &[u8], at: usize, fields: &mut [u64]) -> i32
    ensures { ReadsResource octets.now at fields.old result fields.new }
{
    capi::taxeedhuul_read_resource(octets, at, fields)
}
