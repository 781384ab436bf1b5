// Allocation and resource information: the two bodies with modes and sizes.
// Read in place; written with their frame into a lent area. On octets and tags, by their contracts.
// Rules: document 01, 'Messages', and tables 3.2-5 to 3.2-9 and 3.2-25; layouts in specs/Resource.
#![tactic(auto)]

ghost use Rattle.std.specs.Prelude.{◌≡◌, ◌+◌, ◌*◌, ◌≤◌, ◌<◌, length};
ghost use Rattle.octets.specs.Layout.{put_all};
ghost use Rattle.octets.specs.Area.{Does, Wrote};
ghost use Rattle.octets.specs.Frame.{sent};
ghost use Rattle.tags.specs.Entry.{form_of};
ghost use Rattle.resources.specs.Resource.{mode_known, allocation, room, resource, resources_of, resources_sent, every_mode};
ghost use Rattle.resources.specs.View.{ModeAt, AllocationAt, RoomAt, ResourceAt, ResourcesAt};

use octets::{
    Access, Entries, Entry, Fault, Form, Reading, Span, Taken, Unwritten, Width, Written,
};

// ---- modes

// Whether a mode code stands in the tables: bit 2 SPF required, bit 1 writing prohibited, bit 0 reading prohibited,
// never both; the others zero.
// A mode stays its code: callers hand codes that the tables lack, and both writers' clauses answer 16 for those.
#[tactic(auto, unfolding(crate::specs::Resource::mode_known))]
pub fn is_mode(code: u8) -> bool
    ensures { result ≡ mode_known code }
{
    code < 7 && code != 3
}

// The mode code at a place.
pub fn read_mode(s: &[u8], at: usize) -> Reading<u8>
    ensures { ModeAt s.now at result }
{
    let Taken { value, next } = octets::read_number(s, at, Width::One)?;
    let value = value as u8;
    if !is_mode(value) {
        return Err(Fault::Other);
    }
    Ok(Taken { value, next })
}

// ---- allocation

#[derive(Clone, Copy)]
pub struct Allocation {
    pub tag: u64,
    pub mode: u8,
    pub size: u32,
    pub access: Access,
    pub initial: Span,
}

// The body of an allocation, with a password where the form has one: the password stands behind the size.
pub fn read_allocation(s: &[u8], at: usize, form: Form) -> Reading<Allocation>
    ensures { AllocationAt s.now at form result }
{
    let Taken { value: tag, next } = octets::read_number(s, at, Width::Eight)?;
    let Taken { value: mode, next } = read_mode(s, next)?;
    let Taken { value: size, next } = octets::read_number(s, next, Width::Four)?;
    let Taken {
        value: access,
        next,
    } = tags::read_lock(s, next, form)?;
    let Taken {
        value: initial,
        next,
    } = octets::read_data(s, next)?;
    let value = Allocation {
        tag,
        mode,
        size: size as u32,
        access,
        initial,
    };
    Ok(Taken { value, next })
}

// A message whose body is an allocation.
pub fn write_allocation(
    out: &mut [u8],
    version: u8,
    kind: u8,
    access: Access,
    tag: u64,
    mode: u8,
    size: u32,
    initial: &[u8],
) -> Written
    ensures { Does (sent (allocation (form_of access)) version kind (record { tag = tag; mode = mode; size = size; access = access; initial = initial.now }) out.old) result out.new }
{
    let n = initial.len();
    if !is_mode(mode) || 2048 < n {
        return Err(Unwritten::Refused);
    }
    let body = 13 + tags::lock_size(tags::form_of(access)) + octets::length_size(n) + n;
    let next = octets::open_message(out, version, kind, body)?;
    let next = octets::write_number(out, next, Width::Eight, tag);
    let next = octets::write_number(out, next, Width::One, mode as u64);
    let next = octets::write_number(out, next, Width::Four, size as u64);
    let next = tags::write_lock(out, next, access);
    let next = octets::write_length(out, next, n);
    Ok(octets::copy(out, next, initial))
}

// ---- resource information

// What a unit can take: the largest message, the remaining tags and octets of non-volatile and of volatile memory,
// and the most entries of a bulk list.
#[derive(Clone, Copy)]
pub struct Room {
    pub largest: u32,
    pub tags: u16,
    pub octets: u32,
    pub volatile_tags: u16,
    pub volatile_octets: u32,
    pub entries: u16,
}

// The six numbers that resource information begins with.
pub fn read_room(s: &[u8], at: usize) -> Reading<Room>
    ensures { RoomAt s.now at result }
{
    let Taken {
        value: largest,
        next,
    } = octets::read_number(s, at, Width::Four)?;
    let Taken { value: tags, next } = octets::read_number(s, next, Width::Two)?;
    let Taken {
        value: octets,
        next,
    } = octets::read_number(s, next, Width::Four)?;
    let Taken {
        value: volatile_tags,
        next,
    } = octets::read_number(s, next, Width::Two)?;
    let Taken {
        value: volatile_octets,
        next,
    } = octets::read_number(s, next, Width::Four)?;
    let Taken {
        value: entries,
        next,
    } = octets::read_number(s, next, Width::Two)?;
    let value = Room {
        largest: largest as u32,
        tags: tags as u16,
        octets: octets as u32,
        volatile_tags: volatile_tags as u16,
        volatile_octets: volatile_octets as u32,
        entries: entries as u16,
    };
    Ok(Taken { value, next })
}

// What is told of one tag: its mode, its data size and its area size.
#[derive(Clone, Copy)]
pub struct Resource {
    pub tag: u64,
    pub mode: u8,
    pub held: u32,
    pub size: u32,
}

// An entry of the list of resource information.
pub fn read_resource(s: &[u8], at: usize) -> Reading<Resource>
    ensures { ResourceAt s.now at result }
{
    let Taken { value: tag, next } = octets::read_number(s, at, Width::Eight)?;
    let Taken { value: mode, next } = read_mode(s, next)?;
    let Taken { value: held, next } = octets::read_number(s, next, Width::Four)?;
    let Taken { value: size, next } = octets::read_number(s, next, Width::Four)?;
    let value = Resource {
        tag,
        mode,
        held: held as u32,
        size: size as u32,
    };
    Ok(Taken { value, next })
}

// An entry of the list of resource information, as the list's reader takes it.
#[derive(Clone, Copy)]
struct ResourceEntry;

impl Entry for ResourceEntry {
    ghost use Rattle.resources.specs.declared.Resource.{Resource};

    type Value = Resource;

    ghost Shown = { Resource };

    ghost layout = { λ _. resource };

    ghost shown = { λ _ _ x. x };

    fn read(self, s: &[u8], at: usize) -> Reading<Resource> {
        read_resource(s, at)
    }
}

// The body of resource information: what a unit can take, and where the list of tags stands.
#[derive(Clone, Copy)]
pub struct Resources {
    pub room: Room,
    pub list: Entries,
}

pub fn read_resources(s: &[u8], at: usize) -> Reading<Resources>
    ensures { ResourcesAt s.now at result }
{
    let Taken { value: room, next } = read_room(s, at)?;
    let Taken { value: list, next } = octets::read_list(s, next, ResourceEntry)?;
    let value = Resources { room, list };
    Ok(Taken { value, next })
}

// Whether every mode code stands in the tables.
fn are_modes(modes: &[u8]) -> bool
    ensures { result ≡ every_mode modes.now }
{
    modes.iter().all(|mode| is_mode(*mode))
}

fn put_room(out: &mut [u8], at: usize, x: Room) -> usize
    requires { at + 18 ≤ length out.old }
    ensures { Wrote out.old at (room.put x) out.new result }
{
    let next = octets::write_number(out, at, Width::Four, x.largest as u64);
    let next = octets::write_number(out, next, Width::Two, x.tags as u64);
    let next = octets::write_number(out, next, Width::Four, x.octets as u64);
    let next = octets::write_number(out, next, Width::Two, x.volatile_tags as u64);
    let next = octets::write_number(out, next, Width::Four, x.volatile_octets as u64);
    octets::write_number(out, next, Width::Two, x.entries as u64)
}

fn put_resource(out: &mut [u8], at: usize, x: Resource) -> usize
    requires { at + 17 ≤ length out.old }
    ensures { Wrote out.old at (resource.put x) out.new result }
{
    let next = octets::write_number(out, at, Width::Eight, x.tag);
    let next = octets::write_number(out, next, Width::One, x.mode as u64);
    let next = octets::write_number(out, next, Width::Four, x.held as u64);
    octets::write_number(out, next, Width::Four, x.size as u64)
}

fn put_resources(
    out: &mut [u8],
    at: usize,
    tags: &[u64],
    modes: &[u8],
    held: &[u32],
    sizes: &[u32],
) -> usize
    requires modes_too { length modes.now ≡ length tags.now }
    requires held_too { length held.now ≡ length tags.now }
    requires sizes_too { length sizes.now ≡ length tags.now }
    requires room { at + 17 * length tags.now ≤ length out.old }
    ensures { Wrote out.old at (put_all resource (resources_of tags.now modes.now held.now sizes.now)) out.new result }
{
    let mut next = at;
    // By place, since four slices zipped give a pair within a pair within a pair, which is no plainer.
    for i in 0..tags.len() {
        let x = Resource {
            tag: tags[i],
            mode: modes[i],
            held: held[i],
            size: sizes[i],
        };
        next = put_resource(out, next, x);
    }
    next
}

// A message whose body is resource information: entry i tells of tag i, with mode i, data size i and area size i.
// The slices stay side by side: `resources_sent` has 16 for slices that are not of one length.
pub fn write_resources(
    out: &mut [u8],
    version: u8,
    kind: u8,
    x: Room,
    tags: &[u64],
    modes: &[u8],
    held: &[u32],
    sizes: &[u32],
) -> Written
    ensures { Does (resources_sent version kind x tags.now modes.now held.now sizes.now out.old) result out.new }
{
    let n = tags.len();
    if modes.len() != n || held.len() != n || sizes.len() != n {
        return Err(Unwritten::Refused);
    }
    if !are_modes(modes) || 2048 < n {
        return Err(Unwritten::Refused);
    }
    let body = 18 + octets::length_size(n) + 17 * n;
    let next = octets::open_message(out, version, kind, body)?;
    let next = put_room(out, next, x);
    let next = octets::write_length(out, next, n);
    Ok(put_resources(out, next, tags, modes, held, sizes))
}
