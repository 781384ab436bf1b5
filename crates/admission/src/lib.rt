// Admission: whether a unit lets an operation through, or why it denies it.
// Rules: document 01, 'Denials and their order'. Every operation on a tag has its function here, but for the one that tells what is registered. The rule is
// one for all, `admission`: of its tests the first decides in one order, 6, 12, 11, 10, 8, 9, 5. Each function has those tests that its operation needs.
#![tactic(auto)]

ghost use Rattle.std.specs.Prelude.{◌≡◌, ℕ, ◌≤◌};
ghost use Rattle.admission.specs.Denial.{number, verdict_of};
ghost use Rattle.admission.specs.Mode.{mode_code, code_spf, low_mode, code_mode};
ghost use Rattle.admission.specs.Admission.{unit_managed, lock_unfitted, port_bars, lock_bars, use_bars, bad_size, no_room, admission};
ghost use Rattle.admission.specs.Want.{Known, is_tag, Tag, Allocate, Fit, Free, Read, Write};

use octets::{Access, Port};

// How a tag may be used, by its code in the tables where SPF is not required: 1 where reading is prohibited, 2 where
// writing is.
#[derive(Clone, Copy, PartialEq, Eq)]
pub enum Mode {
    Both = 0,
    ReadOnly = 2,
    WriteOnly = 1,
}

// The fixed limits of a kind of unit.
#[derive(Clone, Copy)]
pub struct Limits {
    pub tags: usize,
    pub memory: usize,
    pub area: usize,
    pub message: usize,
    pub list: usize,
}

// A unit but for its table and its memory. `count` tags are registered, and their areas take `used` octets.
#[derive(Clone, Copy)]
pub struct Head {
    pub limits: Limits,
    pub version: u8,
    pub allocation: bool,
    pub passwords: bool,
    pub count: usize,
    pub used: usize,
}

// What is fixed of a tag while it is registered. A tag without a password has the plain lock.
#[derive(Clone, Copy)]
pub struct Attributes {
    pub tag: u64,
    pub size: usize,
    pub mode: Mode,
    pub spf: bool,
    pub lock: Access,
}

// Why a unit denies, with document 01's number.
#[derive(Clone, Copy, PartialEq, Eq)]
pub enum Denial {
    // The version differs from the unit's.
    Version = 4,
    // There is no room for another tag or for its area.
    Room = 5,
    // The tag is registered already, is not registered, or is of the other kind.
    Tag = 6,
    // A list has too many entries.
    List = 7,
    // The mode prohibits it.
    Mode = 8,
    // The size is bad, or the data is longer than the area.
    Size = 9,
    // The password is missing or another, or is sent for a tag that has none.
    Password = 10,
    // SPF is required and the port is normal.
    Port = 11,
    // The operation type is not in the table, or its option is not fitted.
    Option = 12,
    // The octets do not decode.
    Octets = 16,
}

impl Denial {
    pub fn number(self) -> u8
        ensures { result ≡ number self }
    {
        self as u8
    }
}

// ---- a mode's code, as in the tables

// Four more where SPF is required. No `From`: a mode has a code only beside SPF, and the pair is no type of its own.
pub fn mode_code(mode: Mode, spf: bool) -> u64
    ensures { (result ≡ mode_code mode spf) × (result ≤ 6) }
{
    mode as u64 + if spf { 4 } else { 0 }
}

pub fn code_spf(code: u64) -> bool
    ensures { result ≡ code_spf code }
{
    4 <= code
}

fn low_mode(code: u64) -> Mode
    ensures { result ≡ low_mode code }
{
    match code {
        1 => Mode::WriteOnly,
        2 => Mode::ReadOnly,
        _ => Mode::Both,
    }
}

pub fn code_mode(code: u64) -> Mode
    ensures { result ≡ code_mode code }
{
    low_mode(if code_spf(code) { code - 4 } else { code })
}

// ---- the tests, by their numbers

// Bit 6 of the first octet of a tag.
#[tactic(auto, unfolding(crate::specs::Admission::unit_managed))]
fn is_unit_managed(tag: u64) -> bool
    ensures { result ≡ unit_managed tag }
{
    (tag >> 62) % 2 == 1
}

// 11.
fn port_bars(tag: Attributes, port: Port) -> bool
    ensures { result ≡ port_bars (Tag tag) port }
{
    port == Port::Normal && tag.spf
}

// 10.
fn lock_bars(lock: Access, access: Access) -> bool
    ensures { result ≡ lock_bars lock access }
{
    lock != access
}

// 8, of a read.
fn bars_read(mode: Mode) -> bool
    ensures { result ≡ use_bars mode Read }
{
    mode == Mode::WriteOnly
}

// 8, of a write of any length.
fn bars_write(mode: Mode) -> bool
    ensures { (n : ℕ) → result ≡ use_bars mode (Write n) }
{
    mode == Mode::ReadOnly
}

// 12.
fn lock_unfitted(passwords: bool, lock: Access) -> bool
    ensures { result ≡ lock_unfitted passwords lock }
{
    lock != Access::Plain && !passwords
}

// 9.
fn bad_size(area: usize, size: usize) -> bool
    ensures { result ≡ bad_size area size }
{
    size < 1 || area < size
}

// 5. Compared before they are added: no size is too great.
fn no_room(head: Head, size: usize) -> bool
    ensures { result ≡ no_room head size }
{
    head.limits.tags <= head.count
        || head.limits.memory < head.used
        || head.limits.memory - head.used < size
}

// ---- the operations on a registered tag, each test in its turn

// 11, 10, 8.
#[tactic(auto, unfolding(crate::specs::Admission::admission))]
pub fn admit_read(tag: Attributes, port: Port, access: Access) -> Result<(), Denial>
    ensures { (h : Head) → verdict_of result ≡ admission h (Tag tag) Read port access }
{
    if port_bars(tag, port) {
        return Err(Denial::Port);
    }
    if lock_bars(tag.lock, access) {
        return Err(Denial::Password);
    }
    if bars_read(tag.mode) {
        return Err(Denial::Mode);
    }
    Ok(())
}

// 11, 10, 8, 9: of data of n octets.
#[tactic(auto, unfolding(crate::specs::Admission::admission))]
pub fn admit_write(tag: Attributes, n: usize, port: Port, access: Access) -> Result<(), Denial>
    ensures { (h : Head) → verdict_of result ≡ admission h (Tag tag) (Write n) port access }
{
    if port_bars(tag, port) {
        return Err(Denial::Port);
    }
    if lock_bars(tag.lock, access) {
        return Err(Denial::Password);
    }
    if bars_write(tag.mode) {
        return Err(Denial::Mode);
    }
    if tag.size < n {
        return Err(Denial::Size);
    }
    Ok(())
}

// 6, 11, 10.
#[tactic(auto, unfolding(crate::specs::Admission::admission))]
pub fn admit_free(tag: Attributes, port: Port, access: Access) -> Result<(), Denial>
    ensures { (h : Head) → verdict_of result ≡ admission h (Tag tag) Free port access }
{
    if is_unit_managed(tag.tag) {
        return Err(Denial::Tag);
    }
    if port_bars(tag, port) {
        return Err(Denial::Port);
    }
    if lock_bars(tag.lock, access) {
        return Err(Denial::Password);
    }
    Ok(())
}

// ---- the operations that register a tag, by whether it is registered already

// 6, 9, 5.
#[tactic(auto, unfolding(crate::specs::Admission::admission))]
pub fn admit_allocate(head: Head, registered: bool, new: Attributes) -> Result<(), Denial>
    ensures { (k : Known) (p : Port) (a : Access) → is_tag k ≡ registered
        → verdict_of result ≡ admission head k (Allocate new) p a }
{
    if registered {
        return Err(Denial::Tag);
    }
    if is_unit_managed(new.tag) {
        return Err(Denial::Tag);
    }
    if bad_size(head.limits.area, new.size) {
        return Err(Denial::Size);
    }
    if no_room(head, new.size) {
        return Err(Denial::Room);
    }
    Ok(())
}

// 6, 12, 9, 5: with first data of `held` octets.
#[tactic(auto, unfolding(crate::specs::Admission::admission))]
pub fn admit_fit(head: Head, registered: bool, new: Attributes, held: usize) -> Result<(), Denial>
    ensures { (k : Known) (p : Port) (a : Access) → is_tag k ≡ registered
        → verdict_of result ≡ admission head k (Fit new held) p a }
{
    if registered {
        return Err(Denial::Tag);
    }
    if !is_unit_managed(new.tag) {
        return Err(Denial::Tag);
    }
    if lock_unfitted(head.passwords, new.lock) {
        return Err(Denial::Option);
    }
    if bad_size(head.limits.area, new.size) {
        return Err(Denial::Size);
    }
    if new.size < held {
        return Err(Denial::Size);
    }
    if no_room(head, new.size) {
        return Err(Denial::Room);
    }
    Ok(())
}
