// The gate log program: a log of records from standard input, a line for each to standard output.
// Document 01, 'The gate log program'. What is printed for what input is `output` (records/specs/Output), and `records::step` does all of it but reading and writing; that the
// calls may be made piece by piece, as here, is the theorem `pieces` (records/proofs/Theorems). No contract can speak of what is read and written.
#![tactic(auto)]

ghost use Rattle.std.specs.Prelude.{◌≡◌, ◌-◌, ◌≤◌, ◌<◌, length};
ghost use Rattle.store.specs.Model.{State, Shows, Sound};
ghost use Rattle.records.specs.Output.{first_unit};
ghost use Rattle.records.specs.Entry.{step_out};
ghost use Rattle.gatelog.specs.Place.{first_place, Within, Roomy, enough_turns, at_hand, Emptied, Tried, Refilled, TurnTaken};

use admission::Head;
use records::{Outcome, Turn};
use std::io;
use std::io::Read;
use store::Unit;

// What the input buffer holds, and the output buffer.
const BUFFER: usize = 65536;

// Where the program stands: the unit's head, how many records are answered, the octets at hand (from `start` to `end` of the input buffer), how many characters are not
// yet written, how many were handed over to be written last, whether the input is at its end, and whether to go on.
// `last` and `going` hold of any place, also of one that stops: an Option of a place would lose what that one holds.
#[derive(Clone, Copy)]
struct Place {
    head: Head,
    answered: u32,
    start: usize,
    end: usize,
    filled: usize,
    handed: usize,
    last: bool,
    going: bool,
}

// At first nothing is read, answered or written.
fn first_place(head: Head) -> Place
    ensures { result ≡ first_place head }
{
    Place {
        head,
        answered: 0,
        start: 0,
        end: 0,
        filled: 0,
        handed: 0,
        last: false,
        going: true,
    }
}

// Says on standard error what failed, and the system's words for it. Behind those std's text of an error has its number, as in ` (os error 28)`, which is left out.
fn fail(rt: &(impl Eprint + AllocGlobal), what: &str, error: io::Error) {
    let told = match format!(in rt.alloc(); "{error}") {
        Ok(text) => match text.split_once(" (os error ") {
            Some((words, _)) => eprintln!(rt; "{what}: {words}"),
            None => eprintln!(rt; "{what}: {text}"),
        },
        Err(_) => eprintln!(rt; "{what}: {error}"),
    };
    // Where standard error takes nothing, nothing is said.
    let _ = told;
}

// Writes what is not yet written.
fn write_out(rt: &(impl Print + Eprint + AllocGlobal), mut place: Place, out: &[u8]) -> Place
    requires { place.filled ≤ length out.now }
    ensures { (result.head ≡ place.head) × Emptied place.filled place result × Tried place result }
{
    let handed = place.filled;
    place.filled = 0;
    place.handed = handed;
    if let Err(error) = rt.write_all(&out[..handed]) {
        fail(rt, "write", error);
        place.going = false;
    }
    place
}

// Reads behind the octets at hand, of which there are fewer than the buffer holds. A read that fails says so, and is the end of the input.
fn read_more(
    rt: &(impl Eprint + AllocGlobal),
    stdin: &mut impl Read,
    mut place: Place,
    input: &mut [u8],
) -> Place
    requires { (place.start ≤ place.end) × (place.end ≤ length input.old) × (place.end - place.start < length input.old) }
    ensures { (result.head ≡ place.head) × Refilled place result input.old input.new }
{
    let n = place.end - place.start;
    input.copy_within(place.start..place.end, 0);
    let more = match stdin.read(&mut input[n..]) {
        Ok(more) => more,
        Err(error) => {
            fail(rt, "read", error);
            0
        }
    };
    place.start = 0;
    place.end = n + more;
    place.last = more == 0;
    place
}

// One turn: `records::step` on the octets at hand, and what it says of them done (specs/Place, `TurnTaken`). Before it reads, everything that was answered is written.
fn go_on(
    rt: &(impl Print + Eprint + AllocGlobal),
    stdin: &mut impl Read,
    mut place: Place,
    table: &mut [u64],
    pool: &mut [u8],
    input: &mut [u8],
    out: &mut [u8],
) -> Place
    requires sound { Sound place.head table.old pool.old }
    requires within { Within place input.old out.old }
    requires roomy { Roomy input.old out.old }
    ensures kept { Sound result.head table.new pool.new × Within result input.new out.new }
    ensures turn_taken { (u : State) → Shows u place.head table.old pool.old
        → TurnTaken (step_out u place.answered place.last (at_hand place input.old) out.old place.filled) place result
        input.old input.new out.new table.new pool.new }
{
    let octets = &input[place.start..place.end];
    let Some(Outcome { head, turn }) = records::step(
        place.head,
        table,
        pool,
        place.answered,
        octets,
        place.last,
        out,
        place.filled,
    ) else {
        return write_out(rt, place, out);
    };
    place.head = head;
    match turn {
        Turn::Answered { used, written } => {
            place.answered += 1;
            place.start += used;
            place.filled += written;
            place
        }
        Turn::More => {
            let place = write_out(rt, place, out);
            if place.going {
                read_more(rt, stdin, place, input)
            } else {
                place
            }
        }
        Turn::Ended { written } => {
            place.filled += written;
            place.going = false;
            write_out(rt, place, out)
        }
    }
}

// A proved loop has to end, and nothing says that the input does: it has as many turns as any run takes (specs/Place, `enough_turns`), or more.
fn run(
    rt: &(impl Print + Eprint + AllocGlobal),
    stdin: &mut impl Read,
    head: Head,
    table: &mut [u64],
    pool: &mut [u8],
    input: &mut [u8],
    out: &mut [u8],
    turns: u64,
)
    requires shows { Shows first_unit head table.old pool.old }
    requires roomy { Roomy input.old out.old }
    requires turns_enough { enough_turns ≤ turns }
{
    let mut place = first_place(head);
    for _ in 0..turns {
        if !place.going {
            break;
        }
        place = go_on(rt, stdin, place, table, pool, input, out);
    }
}

fn main(rt: HostRuntime) {
    let Unit {
        mut table,
        mut pool,
    } = Unit::new();
    let Some(head) = Unit::start(1, true, true) else {
        return;
    };
    let mut stdin = rt.stdin();
    let mut input = [0; BUFFER];
    let mut out = [0; BUFFER];
    run(
        &rt,
        &mut stdin,
        head,
        &mut table,
        &mut pool,
        &mut input,
        &mut out,
        u64::MAX,
    );
}
