// The unit's table: a row of eight words for each registered tag, in one slice that the unit's owner lends. A row says what is fixed of the tag, where its area
// starts in the memory, and how many octets are held there. Only get_slot and put_slot know all of a row's words; put_held, find_row and remove_row each
// look at one, the held length, the tag, and where the area starts. What a row is stands in specs/Row; no public function asks anything of its caller.
// A row is words and no struct: the C interface lends the table as plain numbers.
#![tactic(auto)]

ghost use Rattle.std.specs.Prelude.{◌≡◌, ◌+◌, ◌-◌, ◌*◌, ◌≤◌, length, take, drop};
ghost use Rattle.std.proofs.lemmas.List.Edits.{sets};
ghost use Rattle.octets.specs.Number.{bare};
ghost use Rattle.octets.specs.Area.{laid};
ghost use Rattle.rows.specs.Row.{empty as empty_slot, lock_word, password_word, words, lock_of, slot_at, with_held, rows_in, scan, low, sunk, removed};

use admission::{Attributes, Mode};
use octets::Access;

// A row.
#[derive(Clone, Copy)]
pub struct Slot {
    pub about: Attributes,
    pub at: usize,
    pub held: usize,
}

// Where a row's words stand in it. The first is the tag.
impl Slot {
    pub const WORDS: usize = 8;

    const AT: usize = 1;

    const SIZE: usize = 2;

    const HELD: usize = 3;

    // Mode and SPF, by their code.
    const MODE: usize = 4;

    // Whether there is a password.
    const LOCK: usize = 5;

    const PASSWORD: usize = 6;

    // Always zero.
    const REST: usize = 7;
}

// ---- slots and words

// By functions and no `From`: two words of a row are one access.

fn lock_of(locked: u64, password: u64) -> Access
    ensures { result ≡ lock_of locked password }
{
    if locked == 0 {
        Access::Plain
    } else {
        Access::Password(password)
    }
}

fn lock_word(lock: Access) -> u64
    ensures { result ≡ lock_word lock }
{
    match lock {
        Access::Plain => 0,
        Access::Password(_) => 1,
    }
}

fn password_word(lock: Access) -> u64
    ensures { result ≡ password_word lock }
{
    match lock {
        Access::Plain => 0,
        Access::Password(password) => password,
    }
}

fn empty() -> Slot
    ensures { result ≡ empty_slot }
{
    Slot {
        about: Attributes {
            tag: 0,
            size: 0,
            mode: Mode::Both,
            spf: false,
            lock: Access::Plain,
        },
        at: 0,
        held: 0,
    }
}

// The slot in row i; past the table, the empty one.
#[tactic(auto, unfolding(crate::specs::Row::slot_at, crate::specs::Row::slot_in))]
pub fn get_slot(table: &[u64], i: usize) -> Slot
    ensures { result ≡ slot_at table.now i }
{
    if table.len() / Slot::WORDS <= i {
        return empty();
    }
    let j = i * Slot::WORDS;
    let code = table[j + Slot::MODE];
    Slot {
        about: Attributes {
            tag: table[j],
            size: table[j + Slot::SIZE] as usize,
            mode: admission::code_mode(code),
            spf: admission::code_spf(code),
            lock: lock_of(table[j + Slot::LOCK], table[j + Slot::PASSWORD]),
        },
        at: table[j + Slot::AT] as usize,
        held: table[j + Slot::HELD] as usize,
    }
}

// Row i becomes the slot, if the table has that row.
#[tactic(auto, unfolding(crate::specs::Row::words, octets::specs::Area::laid))]
pub fn put_slot(table: &mut [u64], i: usize, slot: Slot)
    ensures { table.new ≡ laid table.old (i * 8) (words slot) }
{
    if table.len() / Slot::WORDS <= i {
        return;
    }
    let j = i * Slot::WORDS;
    let about = slot.about;
    table[j] = about.tag;
    table[j + Slot::AT] = slot.at as u64;
    table[j + Slot::SIZE] = about.size as u64;
    table[j + Slot::HELD] = slot.held as u64;
    table[j + Slot::MODE] = admission::mode_code(about.mode, about.spf);
    table[j + Slot::LOCK] = lock_word(about.lock);
    table[j + Slot::PASSWORD] = password_word(about.lock);
    table[j + Slot::REST] = 0;
}

// The held length in row i becomes n, if the table has that row.
#[tactic(auto, unfolding(crate::specs::Row::with_held))]
pub fn put_held(table: &mut [u64], i: usize, n: usize)
    ensures { table.new ≡ with_held table.old i n }
{
    if table.len() / Slot::WORDS <= i {
        return;
    }
    table[i * Slot::WORDS + Slot::HELD] = n as u64;
}

// ---- the table

// The first of `count` rows with this tag, the six bits that are ignored as zero.
#[tactic(auto, unfolding(crate::specs::Row::scan))]
pub fn find_row(table: &[u64], count: usize, tag: u64) -> Option<usize>
    ensures { result ≡ scan table.now (bare tag) 0 (rows_in table.now count) }
{
    let id = octets::bare_tag(tag);
    let n = count.min(table.len() / Slot::WORDS);
    // The odd row, then two rows a turn: so the loop's own steps are halved, which counts among many tags.
    let odd = n % 2;
    if odd == 1 && table[0] == id {
        return Some(0);
    }
    for k in 0..n / 2 {
        let i = odd + k * 2;
        if table[i * Slot::WORDS] == id {
            return Some(i);
        }
        if table[(i + 1) * Slot::WORDS] == id {
            return Some(i + 1);
        }
    }
    None
}

// Where an area starts after n octets at a place before it are gone.
fn lowered_place(at: usize, n: usize, place: u64) -> u64
    ensures { result ≡ low at n place }
{
    if place <= at as u64 {
        place
    } else {
        place.saturating_sub(n as u64)
    }
}

// The areas behind a place start earlier by n octets.
#[tactic(auto, unfolding(crate::specs::Row::sunk))]
fn lower_places(table: &mut [u64], count: usize, at: usize, n: usize)
    requires { count * 8 ≤ length table.old }
    ensures { table.new ≡ sunk at n table.old count }
{
    for i in 0..count {
        let j = i * Slot::WORDS + Slot::AT;
        table[j] = lowered_place(at, n, table[j]);
    }
}

// The words from `from` up to `to` become those eight places behind them.
fn move_words(table: &mut [u64], from: usize, to: usize)
    requires { (from ≤ to) × (to + 8 ≤ length table.old) }
    ensures { table.new ≡ sets table.old from (take (to - from) (drop (from + 8) table.old)) }
{
    // A loop and no copy_within, which is a call of C's memmove.
    for i in from..to {
        table[i] = table[i + Slot::WORDS];
    }
}

// Row i of `count` goes, if there is one: the rows behind it move up, the last is zero, and the areas behind its area start earlier.
#[tactic(auto, unfolding(crate::specs::Row::removed))]
pub fn remove_row(table: &mut [u64], count: usize, i: usize)
    ensures { table.new ≡ removed table.old count i }
{
    if count <= i || table.len() / Slot::WORDS < count {
        return;
    }
    let slot = get_slot(table, i);
    let last = count - 1;
    move_words(table, i * Slot::WORDS, last * Slot::WORDS);
    put_slot(table, last, empty());
    lower_places(table, last, slot.at, slot.about.size);
}
