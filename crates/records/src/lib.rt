// The gate log: one record of the input and one line of the output at a time, on slices that the caller lends.
// Rules: document 01, 'The gate log program'. The whole output for a whole input is `output` (specs/Output); what one call does is `turn` (specs/Turn), and however
// the input is cut into pieces, calls one after another give `output` (proofs/Theorems). The caller reads, calls `step` and writes.
#![tactic(auto)]

ghost use Rattle.std.specs.Prelude.{◌≡◌, Bool, List, [], ◌∷◌, ℕ, ◌+◌, ◌*◌, ◌≤◌, ◌<◌, length, Some};
ghost use Rattle.octets.specs.Area.{Wrote};
ghost use Rattle.store.specs.Model.{State, Shows, Sound};
ghost use Rattle.records.specs.Text.{digits, hexadecimal_digit, pair, hexadecimal, answer_line, worded};
ghost use Rattle.records.specs.Record.{port_of, whole, front_after};
ghost use Rattle.records.specs.Output.{end_lines, stop_lines};
ghost use Rattle.records.specs.Turn.{turned_by, turn};
ghost use Rattle.records.specs.Entry.{look_in, LookPlace, Stepped, out_of, step_out};

use admission::Head;
use octets::Port;
use responder::Reply;

// The longest line: a number of ten digits, a space, 2,048 octets in hexadecimal, the line's end. The closing lines together are shorter.
pub const LINE: usize = 4108;

// ---- numbers and octets as text

// No heap, so no String; and `write!` on a slice promises how many octets it writes, not which, as `Wrote` does here.
fn write_digit(out: &mut [u8], at: usize, n: u64) -> usize
    requires { (at < length out.old) × (n < 10) }
    ensures { Wrote out.old at ((48 + n) ∷ []) out.new result }
{
    out[at] = b'0' + n as u8;
    at + 1
}

// Writes a number in at most so many decimal digits, and says where the next character stands.
fn write_digits(out: &mut [u8], at: usize, places: usize, n: u64) -> usize
    requires { at + places ≤ length out.old }
    ensures { Wrote out.old at (digits places n) out.new result }
{
    if places == 0 {
        return at;
    }
    if n < 10 {
        return write_digit(out, at, n);
    }
    let next = write_digits(out, at, places - 1, n / 10);
    write_digit(out, next, n % 10)
}

#[tactic(auto, unfolding(crate::specs::Text::hexadecimal_digit))]
fn hexadecimal_digit(n: u8) -> u8
    requires { n < 16 }
    ensures { result ≡ hexadecimal_digit n }
{
    if n < 10 { b'0' + n } else { b'A' - 10 + n }
}

fn write_pair(out: &mut [u8], at: usize, x: u8) -> usize
    requires { at + 2 ≤ length out.old }
    ensures { Wrote out.old at (pair x) out.new result }
{
    out[at] = hexadecimal_digit(x / 16);
    out[at + 1] = hexadecimal_digit(x % 16);
    at + 2
}

// Writes octets in capital hexadecimal.
fn write_hexadecimal(out: &mut [u8], at: usize, s: &[u8]) -> usize
    requires { at + 2 * length s.now ≤ length out.old }
    ensures { Wrote out.old at (hexadecimal s.now) out.new result }
{
    let mut next = at;
    for octet in s {
        next = write_pair(out, next, *octet);
    }
    next
}

// ---- lines

// Writes the line of a record that is answered.
fn write_answer(out: &mut [u8], at: usize, number: u64, answer: &[u8]) -> usize
    requires { at + 12 + 2 * length answer.now ≤ length out.old }
    ensures { Wrote out.old at (answer_line number answer.now) out.new result }
{
    let a = write_digits(out, at, 10, number);
    let b = octets::copy(out, a, b" ");
    let c = write_hexadecimal(out, b, answer);
    octets::copy(out, c, b"\n")
}

// Writes words, a number and the line's end.
fn write_words(out: &mut [u8], at: usize, words: &[u8], number: u64) -> usize
    requires { at + length words.now + 11 ≤ length out.old }
    ensures { Wrote out.old at (worded words.now number) out.new result }
{
    let a = octets::copy(out, at, words);
    let b = write_digits(out, a, 10, number);
    octets::copy(out, b, b"\n")
}

// Writes the lines for an input that is at its end.
fn write_end(out: &mut [u8], at: usize, answered: u32) -> usize
    requires { at + 19 ≤ length out.old }
    ensures { Wrote out.old at (end_lines answered) out.new result }
{
    write_words(out, at, b"records ", answered as u64)
}

// Writes the lines for a bad record.
fn write_stop(out: &mut [u8], at: usize, answered: u32) -> usize
    requires { at + 41 ≤ length out.old }
    ensures { Wrote out.old at (stop_lines answered) out.new result }
{
    let next = write_words(out, at, b"bad record ", answered as u64 + 1);
    write_end(out, next, answered)
}

// ---- records

// What stands at the front of octets.
#[derive(Clone, Copy)]
enum Front<'a> {
    Nothing,
    Wrong,
    Cut,
    // A record. Its request stands behind the first five octets.
    Whole { port: Port, request: &'a [u8] },
}

// The port of a record; 0 or 1. A function, as `From` would have to stand beside `Port` in octets.
fn port_of(n: u8) -> Port
    ensures { result ≡ port_of n }
{
    if n == 0 { Port::Normal } else { Port::Secure }
}

// The record that begins with the first of the octets, so many records having been answered before.
#[tactic(auto, using(crate::proofs::Fronts::looks))]
fn look(answered: u32, s: &[u8]) -> Front<'_>
    ensures { (look_in s.now result ≡ front_after answered s.now) × LookPlace s.now result }
{
    let [first, behind @ ..] = s else {
        return Front::Nothing;
    };
    if answered == u32::MAX {
        return Front::Wrong;
    }
    if *first != 0x4d {
        return Front::Wrong;
    }
    let [second, behind @ ..] = behind else {
        return Front::Cut;
    };
    if *second != 0x41 {
        return Front::Wrong;
    }
    let [port, behind @ ..] = behind else {
        return Front::Cut;
    };
    if 1 < *port {
        return Front::Wrong;
    }
    let [high, low, behind @ ..] = behind else {
        return Front::Cut;
    };
    let len = usize::from(u16::from_be_bytes([*high, *low]));
    if 2048 < len {
        return Front::Wrong;
    }
    if behind.len() < len {
        return Front::Cut;
    }
    Front::Whole {
        port: port_of(*port),
        request: &behind[..len],
    }
}

// ---- the entry

// What became of the octets at hand.
#[derive(Clone, Copy)]
pub enum Turn {
    // They do not suffice: come again with more of them behind these.
    More,
    // A record is answered: so many octets were used, and a line of so many written.
    Answered { used: usize, written: usize },
    // Reading stops: the closing lines are written.
    Ended { written: usize },
}

// A turn, and the unit's head after it.
#[derive(Clone, Copy)]
pub struct Outcome {
    pub head: Head,
    pub turn: Turn,
}

// Answers a record.
// The unit comes as head, table and memory, as `respond` takes it.
fn answer(
    head: Head,
    table: &mut [u64],
    pool: &mut [u8],
    answered: u32,
    port: Port,
    request: &[u8],
    out: &mut [u8],
    at: usize,
) -> Outcome
    requires sound { Sound head table.old pool.old }
    requires room { (at + 4108 ≤ length out.old) × (length request.now ≤ 2048) }
    ensures { (u : State) (last : Bool) (s : List ℕ) → Shows u head table.old pool.old
        → Stepped (out_of u out.old at (turned_by u answered last (whole port request.now s))) head (Some result) out.new table.new pool.new }
{
    let mut area = [0; 2048];
    let Reply { head, sent } = responder::respond(head, table, pool, port, request, &mut area);
    // An area of 2,048 octets is never too short for an answer.
    let len = sent.unwrap_or(0);
    let next = write_answer(out, at, answered as u64 + 1, &area[..len]);
    Outcome {
        head,
        turn: Turn::Answered {
            used: 5 + request.len(),
            written: next - at,
        },
    }
}

// What is done where the area has room for a line.
fn take_turn(
    head: Head,
    table: &mut [u64],
    pool: &mut [u8],
    answered: u32,
    octets: &[u8],
    last: bool,
    out: &mut [u8],
    at: usize,
) -> Outcome
    requires sound { Sound head table.old pool.old }
    requires room { at + 4108 ≤ length out.old }
    ensures { (u : State) → Shows u head table.old pool.old
        → Stepped (out_of u out.old at (turn u answered last octets.now)) head (Some result) out.new table.new pool.new }
{
    let turn = match look(answered, octets) {
        Front::Whole { port, request } => {
            return answer(head, table, pool, answered, port, request, out, at);
        }
        Front::Nothing if last => Turn::Ended {
            written: write_end(out, at, answered) - at,
        },
        Front::Nothing => Turn::More,
        Front::Cut if last => Turn::Ended {
            written: write_stop(out, at, answered) - at,
        },
        Front::Cut => Turn::More,
        Front::Wrong => Turn::Ended {
            written: write_stop(out, at, answered) - at,
        },
    };
    Outcome { head, turn }
}

// Answers the record that the octets begin with, or closes the log, or asks for more octets. So many records were answered before, and `last` says that nothing comes
// behind the octets. The line is written from a place of the area on. Where the area has no room for one (300), nothing is done and there is no outcome.
// The area comes whole, with a place: `step_out` says also of the octets before the line that they stay.
pub fn step(
    head: Head,
    table: &mut [u64],
    pool: &mut [u8],
    answered: u32,
    octets: &[u8],
    last: bool,
    out: &mut [u8],
    at: usize,
) -> Option<Outcome>
    requires { Sound head table.old pool.old }
    ensures { (u : State) → Shows u head table.old pool.old
        → Stepped (step_out u answered last octets.now out.old at) head result out.new table.new pool.new }
{
    if out.len().saturating_sub(at) < LINE {
        return None;
    }
    Some(take_turn(head, table, pool, answered, octets, last, out, at))
}
