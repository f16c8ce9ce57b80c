// The step that picks the call in place, and the command of bytes. On well-formed arrays and lent memory of the right size they do what
// the rules say; on others they answer too, and promise nothing, so they are no entries.
#![tactic(auto)]

ghost use Rattle.std.specs.Prelude.{◌≡◌};
ghost use Rattle.arrays.specs.Lent.{held, left_in, SameLists};
ghost use Rattle.step.specs.Entries.{OnFormed, ruled_on, ran_on, command_judged_on};

use arrays::{Answer, Machine};
use calls::{Call, read_at};
use calls_in_place::claim_calls::{claim, create, destroy, release};
use calls_in_place::collect_calls::collect;
use calls_in_place::page_calls::{map, unmap, zero};
use calls_in_place::revoke_calls::revoke;
use calls_in_place::sweep_calls::sweep;
use calls_in_place::table_calls::{PLAIN, give, merge, split, take};
use calls_in_place::word_calls::{grant, load, narrow, number, receive, store};
use capabilities::refusal::Refusal;

// What a command hands back: its answer, and how many bytes it used.
#[derive(Clone, Copy)]
pub struct Ended {
    pub answer: Answer,
    pub used: usize,
}

// One call.
pub fn step(machine: &mut Machine<'_>, call: Call) -> Answer
    ensures lists { SameLists machine.new machine.old }
    ensures ruled { OnFormed (held machine.old) machine.old.cells.now machine.old.tags.now (left_in result machine.new ≡ ruled_on (held machine.old) call machine.old.cells.now machine.old.tags.now) }
{
    // One by one: where a call only reads a list, lending it and another straight from the machine has no rule.
    let nums = &mut machine.nums;
    let words = &mut *machine.words;
    let marks = &mut *machine.marks;
    let mail = &mut *machine.mail;
    let flags = &mut *machine.flags;
    let rows = &mut *machine.rows;
    let pages = &mut *machine.pages;
    let frames = &mut *machine.frames;
    let principals = &mut *machine.principals;
    let counts = &mut *machine.counts;
    let cells = &mut *machine.cells;
    let tags = &mut *machine.tags;
    match call {
        Call::Take { party, base, reg } => {
            Answer::from(take(nums.count, rows, words, marks, party, base, reg, PLAIN))
        }
        Call::Split { party, base, len } => {
            Answer::from(split(&mut nums.count, rows, party, base, len))
        }
        Call::Merge { party, base } => Answer::from(merge(&mut nums.count, rows, party, base)),
        Call::Give { party, base, to } => Answer::from(give(nums.count, rows, party, base, to)),
        Call::Revoke { party, base } => Answer::from(revoke(nums, rows, pages, party, base)),
        Call::Sweep { party, n } => Answer::from(sweep(nums, frames, party, n, cells, tags)),
        Call::Collect { party } => Answer::from(collect(
            nums, rows, pages, words, marks, mail, flags, party,
        )),
        Call::Map { party, page, frame } => {
            Answer::from(map(*nums, pages, frames, party, page, frame))
        }
        Call::Unmap { party, page } => {
            Answer::from(unmap(*nums, pages, frames, counts, party, page))
        }
        Call::Zero { party, frame } => {
            Answer::from(zero(nums.f, frames, party, frame, cells, tags))
        }
        Call::Load { party, a, off, d } => Answer::from(load(
            words, marks, *nums, pages, party, a, off, d, cells, tags,
        )),
        Call::Store { party, a, off, s } => Answer::from(store(
            words, marks, *nums, pages, party, a, off, s, cells, tags,
        )),
        Call::Narrow {
            party,
            s,
            off,
            len,
            mask,
            d,
        } => Answer::from(narrow(words, marks, party, s, off, len, mask, d)),
        Call::Number { party, d, value } => Answer::from(number(words, marks, party, d, value)),
        Call::Grant { party, s, to } => {
            Answer::from(grant(words, marks, mail, flags, party, s, to))
        }
        Call::Receive { party, d } => Answer::from(receive(words, marks, mail, flags, party, d)),
        Call::TakeMasked {
            party,
            base,
            reg,
            mask,
        } => Answer::from(take(nums.count, rows, words, marks, party, base, reg, mask)),
        Call::Create {
            party,
            parent,
            child,
            limit,
            holder,
        } => Answer::from(create(principals, party, parent, child, limit, holder)),
        Call::Claim {
            party,
            principal,
            page,
        } => Answer::from(claim(nums.v, principals, counts, party, principal, page)),
        Call::Release {
            party,
            principal,
            page,
        } => Answer::from(release(nums.v, principals, counts, party, principal, page)),
        Call::Destroy { party, principal } => {
            Answer::from(destroy(principals, counts, party, principal))
        }
    }
}

// The command at a place of the input.
pub fn command(machine: &mut Machine<'_>, input: &[u8], at: usize) -> Ended
    ensures lists { SameLists machine.new machine.old }
    ensures judged { OnFormed (held machine.old) machine.old.cells.now machine.old.tags.now (ran_on (left_in result.answer machine.new) result.used ≡ command_judged_on (held machine.old) input.now at machine.old.cells.now machine.old.tags.now) }
{
    match read_at(input, at) {
        Some((call, used)) => Ended {
            answer: step(machine, call),
            used,
        },
        None => Ended {
            answer: Answer::refused(Refusal::Command),
            used: 0,
        },
    }
}
